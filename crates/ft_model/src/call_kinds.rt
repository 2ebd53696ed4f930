//! What is known of a call before it is made: which containers and cursor it names, whether it
//! changes one, which locks it takes, what it does to tables.
ghost use Rattle.std.specs.Prelude.{◌≡◌, length};

use crate::call::{Call, Containers, DequeCall, DictCall, ListCall, SetCall, TableChange};

impl Containers {
    ghost use Rattle.ft_model.specs.Calls.{one_or_two, container_list};

    /// How many there are.
    pub fn count(self) -> u32
        ensures { result ≡ length (container_list self) }
    {
        match self {
            Containers::None => 0,
            Containers::One(_) => 1,
            Containers::Two(..) => 2,
        }
    }

    /// One or two; two equal ones count as one.
    fn of(first: u32, second: Option<u32>) -> Self
        ensures { container_list result ≡ one_or_two first second }
    {
        match second {
            Some(second) if second != first => Containers::Two(first, second),
            _ => Containers::One(first),
        }
    }
}

impl Call {
    ghost use Rattle.ft_model.specs.Calls.{is_changing, containers_of, container_list, locks_of, can_add};

    /// Whether the call is of a kind that changes a container.
    pub fn is_changing(&self) -> bool
        ensures { result ≡ is_changing self.now }
    {
        match self {
            Call::Dict { call, .. } => call.is_changing(),
            Call::List { call, .. } => call.is_changing(),
            Call::Set { call, .. } => call.is_changing(),
            Call::Deque { call, .. } => call.is_changing(),
            Call::Next { .. }
            | Call::Begin { .. }
            | Call::End
            | Call::Quiesce
            | Call::Await { .. }
            | Call::Dump => false,
        }
    }

    /// The containers that the call names. A `next` names a cursor and no container, and a dump
    /// names none.
    pub fn containers(&self) -> Containers
        ensures { container_list result ≡ containers_of self.now }
    {
        match *self {
            Call::Dict { container, call } => Containers::of(container, call.other()),
            Call::List { container, call } => Containers::of(container, call.other()),
            Call::Set { container, call } => Containers::of(container, call.other()),
            Call::Deque { container, call } => Containers::of(container, call.other()),
            Call::Begin { first, second } => Containers::of(first, second),
            Call::Next { .. } | Call::End | Call::Quiesce | Call::Await { .. } | Call::Dump => {
                Containers::None
            }
        }
    }

    /// How many locks the call takes from the start. A call that takes none is tried without a lock
    /// first (PEP 703, Optimistically avoiding locking), but for those that name no container.
    pub fn locks(&self) -> u32
        ensures { result ≡ locks_of self.now }
    {
        let locked = match self {
            Call::Dict { call, .. } => call.is_locked(),
            Call::List { call, .. } => call.is_locked(),
            Call::Set { call, .. } => call.is_locked(),
            Call::Deque { call, .. } => call.is_locked(),
            Call::Begin { .. } => true,
            Call::Next { .. } => return 1,
            Call::End | Call::Quiesce | Call::Await { .. } | Call::Dump => return 0,
        };
        if locked { self.containers().count() } else { 0 }
    }

    /// Whether the call can put something new into a container, and so raise a MemoryError of a
    /// class or over.
    pub fn can_add(&self) -> bool
        ensures { result ≡ can_add self.now }
    {
        match self {
            Call::Dict { call, .. } => call.table_change().adds(),
            Call::List { call, .. } => call.table_change().adds(),
            Call::Set { call, .. } => call.table_change().adds(),
            Call::Deque { call, .. } => call.table_change().adds(),
            Call::Next { .. }
            | Call::Begin { .. }
            | Call::End
            | Call::Quiesce
            | Call::Await { .. }
            | Call::Dump => false,
        }
    }
}

impl TableChange {
    ghost use Rattle.ft_model.specs.Calls.{adds};

    /// Whether a call that does this can put something new into a container.
    pub fn adds(self) -> bool
        ensures { result ≡ adds self }
    {
        match self {
            TableChange::Grows | TableChange::CopiesTo(_) => true,
            TableChange::Stays | TableChange::GivesUp => false,
        }
    }
}

impl DictCall {
    ghost use Rattle.ft_model.specs.Calls.{is_changing_dict, other_dict, cursor_of_dict, is_locked_dict, dict_change};

    /// Whether the call is of a kind that changes a dict.
    pub fn is_changing(&self) -> bool
        ensures { result ≡ is_changing_dict self.now }
    {
        match self {
            DictCall::Set { .. }
            | DictCall::Del { .. }
            | DictCall::Pop { .. }
            | DictCall::PopOr { .. }
            | DictCall::PopItem
            | DictCall::SetDefault { .. }
            | DictCall::Update { .. }
            | DictCall::Clear
            | DictCall::CopyTo { .. } => true,
            DictCall::Get { .. }
            | DictCall::GetOr { .. }
            | DictCall::Has { .. }
            | DictCall::Len
            | DictCall::Items
            | DictCall::Eq { .. }
            | DictCall::Iter { .. }
            | DictCall::KeysAnd { .. }
            | DictCall::KeysSub { .. }
            | DictCall::KeysOr { .. }
            | DictCall::KeysXor { .. }
            | DictCall::ItemsHas { .. }
            | DictCall::Reversed { .. } => false,
        }
    }

    /// The other dict that the call names.
    pub fn other(&self) -> Option<u32>
        ensures { result ≡ other_dict self.now }
    {
        match *self {
            DictCall::Update { other }
            | DictCall::CopyTo { other }
            | DictCall::Eq { other }
            | DictCall::KeysAnd { other }
            | DictCall::KeysSub { other }
            | DictCall::KeysOr { other }
            | DictCall::KeysXor { other } => Some(other),
            DictCall::Get { .. }
            | DictCall::GetOr { .. }
            | DictCall::Set { .. }
            | DictCall::Del { .. }
            | DictCall::Pop { .. }
            | DictCall::PopOr { .. }
            | DictCall::PopItem
            | DictCall::SetDefault { .. }
            | DictCall::Has { .. }
            | DictCall::Len
            | DictCall::Items
            | DictCall::Clear
            | DictCall::Iter { .. }
            | DictCall::ItemsHas { .. }
            | DictCall::Reversed { .. } => None,
        }
    }

    /// The cursor that the call makes.
    pub fn cursor(&self) -> Option<u32>
        ensures { result ≡ cursor_of_dict self.now }
    {
        match *self {
            DictCall::Iter { cursor } | DictCall::Reversed { cursor } => Some(cursor),
            DictCall::Get { .. }
            | DictCall::GetOr { .. }
            | DictCall::Set { .. }
            | DictCall::Del { .. }
            | DictCall::Pop { .. }
            | DictCall::PopOr { .. }
            | DictCall::PopItem
            | DictCall::SetDefault { .. }
            | DictCall::Has { .. }
            | DictCall::Len
            | DictCall::Items
            | DictCall::Update { .. }
            | DictCall::Clear
            | DictCall::CopyTo { .. }
            | DictCall::Eq { .. }
            | DictCall::KeysAnd { .. }
            | DictCall::KeysSub { .. }
            | DictCall::KeysOr { .. }
            | DictCall::KeysXor { .. }
            | DictCall::ItemsHas { .. } => None,
        }
    }

    /// Whether the call takes the locks of what it names from the start.
    pub fn is_locked(&self) -> bool
        ensures { result ≡ is_locked_dict self.now }
    {
        match self {
            DictCall::Get { .. }
            | DictCall::GetOr { .. }
            | DictCall::Has { .. }
            | DictCall::Len
            | DictCall::Items
            | DictCall::Eq { .. }
            | DictCall::ItemsHas { .. } => false,
            DictCall::Set { .. }
            | DictCall::Del { .. }
            | DictCall::Pop { .. }
            | DictCall::PopOr { .. }
            | DictCall::PopItem
            | DictCall::SetDefault { .. }
            | DictCall::Update { .. }
            | DictCall::Clear
            | DictCall::CopyTo { .. }
            | DictCall::Iter { .. }
            | DictCall::KeysAnd { .. }
            | DictCall::KeysSub { .. }
            | DictCall::KeysOr { .. }
            | DictCall::KeysXor { .. }
            | DictCall::Reversed { .. } => true,
        }
    }

    /// What the call does to tables, where the dict is not split.
    pub fn table_change(&self) -> TableChange
        ensures { result ≡ dict_change self.now }
    {
        match *self {
            DictCall::Set { .. } | DictCall::SetDefault { .. } | DictCall::Update { .. } =>
                TableChange::Grows,
            DictCall::CopyTo { other } => TableChange::CopiesTo(other),
            DictCall::Clear => TableChange::GivesUp,
            DictCall::Get { .. }
            | DictCall::GetOr { .. }
            | DictCall::Del { .. }
            | DictCall::Pop { .. }
            | DictCall::PopOr { .. }
            | DictCall::PopItem
            | DictCall::Has { .. }
            | DictCall::Len
            | DictCall::Items
            | DictCall::Eq { .. }
            | DictCall::Iter { .. }
            | DictCall::KeysAnd { .. }
            | DictCall::KeysSub { .. }
            | DictCall::KeysOr { .. }
            | DictCall::KeysXor { .. }
            | DictCall::ItemsHas { .. }
            | DictCall::Reversed { .. } => TableChange::Stays,
        }
    }
}

impl ListCall {
    ghost use Rattle.ft_model.specs.Calls.{is_changing_list, other_list, cursor_of_list, is_locked_list, list_change};

    /// Whether the call is of a kind that changes a list.
    pub fn is_changing(&self) -> bool
        ensures { result ≡ is_changing_list self.now }
    {
        match self {
            ListCall::Append { .. }
            | ListCall::Insert { .. }
            | ListCall::Set { .. }
            | ListCall::Del { .. }
            | ListCall::Pop { .. }
            | ListCall::Remove { .. }
            | ListCall::Reverse
            | ListCall::Extend { .. }
            | ListCall::Clear => true,
            ListCall::Get { .. }
            | ListCall::Index { .. }
            | ListCall::Count { .. }
            | ListCall::Has { .. }
            | ListCall::Slice { .. }
            | ListCall::Len
            | ListCall::Items
            | ListCall::Eq { .. }
            | ListCall::Iter { .. }
            | ListCall::Reversed { .. } => false,
        }
    }

    /// The other list that the call names.
    pub fn other(&self) -> Option<u32>
        ensures { result ≡ other_list self.now }
    {
        match *self {
            ListCall::Extend { other } | ListCall::Eq { other } => Some(other),
            ListCall::Append { .. }
            | ListCall::Insert { .. }
            | ListCall::Get { .. }
            | ListCall::Set { .. }
            | ListCall::Del { .. }
            | ListCall::Pop { .. }
            | ListCall::Remove { .. }
            | ListCall::Index { .. }
            | ListCall::Count { .. }
            | ListCall::Has { .. }
            | ListCall::Reverse
            | ListCall::Slice { .. }
            | ListCall::Clear
            | ListCall::Len
            | ListCall::Items
            | ListCall::Iter { .. }
            | ListCall::Reversed { .. } => None,
        }
    }

    /// The cursor that the call makes.
    pub fn cursor(&self) -> Option<u32>
        ensures { result ≡ cursor_of_list self.now }
    {
        match *self {
            ListCall::Iter { cursor } | ListCall::Reversed { cursor } => Some(cursor),
            ListCall::Append { .. }
            | ListCall::Insert { .. }
            | ListCall::Get { .. }
            | ListCall::Set { .. }
            | ListCall::Del { .. }
            | ListCall::Pop { .. }
            | ListCall::Remove { .. }
            | ListCall::Index { .. }
            | ListCall::Count { .. }
            | ListCall::Has { .. }
            | ListCall::Reverse
            | ListCall::Extend { .. }
            | ListCall::Slice { .. }
            | ListCall::Clear
            | ListCall::Len
            | ListCall::Items
            | ListCall::Eq { .. } => None,
        }
    }

    /// Whether the call takes the locks of what it names from the start.
    pub fn is_locked(&self) -> bool
        ensures { result ≡ is_locked_list self.now }
    {
        match self {
            ListCall::Get { .. }
            | ListCall::Has { .. }
            | ListCall::Len
            | ListCall::Items
            | ListCall::Eq { .. } => false,
            ListCall::Append { .. }
            | ListCall::Insert { .. }
            | ListCall::Set { .. }
            | ListCall::Del { .. }
            | ListCall::Pop { .. }
            | ListCall::Remove { .. }
            | ListCall::Index { .. }
            | ListCall::Count { .. }
            | ListCall::Reverse
            | ListCall::Extend { .. }
            | ListCall::Slice { .. }
            | ListCall::Clear
            | ListCall::Iter { .. }
            | ListCall::Reversed { .. } => true,
        }
    }

    /// What the call does to tables.
    pub fn table_change(&self) -> TableChange
        ensures { result ≡ list_change self.now }
    {
        match *self {
            ListCall::Append { .. } | ListCall::Insert { .. } | ListCall::Extend { .. } =>
                TableChange::Grows,
            ListCall::Clear => TableChange::GivesUp,
            ListCall::Get { .. }
            | ListCall::Set { .. }
            | ListCall::Del { .. }
            | ListCall::Pop { .. }
            | ListCall::Remove { .. }
            | ListCall::Index { .. }
            | ListCall::Count { .. }
            | ListCall::Has { .. }
            | ListCall::Reverse
            | ListCall::Slice { .. }
            | ListCall::Len
            | ListCall::Items
            | ListCall::Eq { .. }
            | ListCall::Iter { .. }
            | ListCall::Reversed { .. } => TableChange::Stays,
        }
    }
}

impl SetCall {
    ghost use Rattle.ft_model.specs.Calls.{is_changing_set, other_set, cursor_of_set, is_locked_set, set_change};

    /// Whether the call is of a kind that changes a set.
    pub fn is_changing(&self) -> bool
        ensures { result ≡ is_changing_set self.now }
    {
        match self {
            SetCall::Add { .. }
            | SetCall::Discard { .. }
            | SetCall::Remove { .. }
            | SetCall::Pop
            | SetCall::Or { .. }
            | SetCall::And { .. }
            | SetCall::Sub { .. }
            | SetCall::Xor { .. }
            | SetCall::Clear => true,
            SetCall::Has { .. }
            | SetCall::Len
            | SetCall::Items
            | SetCall::Eq { .. }
            | SetCall::Subset { .. }
            | SetCall::Disjoint { .. }
            | SetCall::Iter { .. } => false,
        }
    }

    /// The other set that the call names.
    pub fn other(&self) -> Option<u32>
        ensures { result ≡ other_set self.now }
    {
        match *self {
            SetCall::Eq { other }
            | SetCall::Or { other }
            | SetCall::And { other }
            | SetCall::Sub { other }
            | SetCall::Xor { other }
            | SetCall::Subset { other }
            | SetCall::Disjoint { other } => Some(other),
            SetCall::Add { .. }
            | SetCall::Discard { .. }
            | SetCall::Remove { .. }
            | SetCall::Pop
            | SetCall::Has { .. }
            | SetCall::Len
            | SetCall::Items
            | SetCall::Clear
            | SetCall::Iter { .. } => None,
        }
    }

    /// The cursor that the call makes.
    pub fn cursor(&self) -> Option<u32>
        ensures { result ≡ cursor_of_set self.now }
    {
        match *self {
            SetCall::Iter { cursor } => Some(cursor),
            SetCall::Add { .. }
            | SetCall::Discard { .. }
            | SetCall::Remove { .. }
            | SetCall::Pop
            | SetCall::Has { .. }
            | SetCall::Len
            | SetCall::Items
            | SetCall::Eq { .. }
            | SetCall::Or { .. }
            | SetCall::And { .. }
            | SetCall::Sub { .. }
            | SetCall::Xor { .. }
            | SetCall::Subset { .. }
            | SetCall::Disjoint { .. }
            | SetCall::Clear => None,
        }
    }

    /// Whether the call takes the locks of what it names from the start.
    pub fn is_locked(&self) -> bool
        ensures { result ≡ is_locked_set self.now }
    {
        match self {
            SetCall::Has { .. } | SetCall::Len | SetCall::Items | SetCall::Eq { .. } => false,
            SetCall::Add { .. }
            | SetCall::Discard { .. }
            | SetCall::Remove { .. }
            | SetCall::Pop
            | SetCall::Or { .. }
            | SetCall::And { .. }
            | SetCall::Sub { .. }
            | SetCall::Xor { .. }
            | SetCall::Subset { .. }
            | SetCall::Disjoint { .. }
            | SetCall::Clear
            | SetCall::Iter { .. } => true,
        }
    }

    /// What the call does to tables.
    pub fn table_change(&self) -> TableChange
        ensures { result ≡ set_change self.now }
    {
        match *self {
            SetCall::Add { .. } | SetCall::Or { .. } | SetCall::Xor { .. } => TableChange::Grows,
            SetCall::Clear => TableChange::GivesUp,
            SetCall::Discard { .. }
            | SetCall::Remove { .. }
            | SetCall::Pop
            | SetCall::Has { .. }
            | SetCall::Len
            | SetCall::Items
            | SetCall::Eq { .. }
            | SetCall::And { .. }
            | SetCall::Sub { .. }
            | SetCall::Subset { .. }
            | SetCall::Disjoint { .. }
            | SetCall::Iter { .. } => TableChange::Stays,
        }
    }
}

impl DequeCall {
    ghost use Rattle.ft_model.specs.Calls.{is_changing_deque, other_deque, cursor_of_deque, is_locked_deque, deque_change};

    /// Whether the call is of a kind that changes a deque.
    pub fn is_changing(&self) -> bool
        ensures { result ≡ is_changing_deque self.now }
    {
        match self {
            DequeCall::Append { .. }
            | DequeCall::AppendLeft { .. }
            | DequeCall::Pop
            | DequeCall::PopLeft
            | DequeCall::Extend { .. }
            | DequeCall::ExtendLeft { .. }
            | DequeCall::Rotate { .. }
            | DequeCall::Clear => true,
            DequeCall::Get { .. }
            | DequeCall::Len
            | DequeCall::Items
            | DequeCall::Has { .. }
            | DequeCall::Iter { .. } => false,
        }
    }

    /// The other deque that the call names.
    pub fn other(&self) -> Option<u32>
        ensures { result ≡ other_deque self.now }
    {
        match *self {
            DequeCall::Extend { other } | DequeCall::ExtendLeft { other } => Some(other),
            DequeCall::Append { .. }
            | DequeCall::AppendLeft { .. }
            | DequeCall::Pop
            | DequeCall::PopLeft
            | DequeCall::Rotate { .. }
            | DequeCall::Clear
            | DequeCall::Get { .. }
            | DequeCall::Len
            | DequeCall::Items
            | DequeCall::Has { .. }
            | DequeCall::Iter { .. } => None,
        }
    }

    /// The cursor that the call makes.
    pub fn cursor(&self) -> Option<u32>
        ensures { result ≡ cursor_of_deque self.now }
    {
        match *self {
            DequeCall::Iter { cursor } => Some(cursor),
            DequeCall::Append { .. }
            | DequeCall::AppendLeft { .. }
            | DequeCall::Pop
            | DequeCall::PopLeft
            | DequeCall::Extend { .. }
            | DequeCall::ExtendLeft { .. }
            | DequeCall::Rotate { .. }
            | DequeCall::Clear
            | DequeCall::Get { .. }
            | DequeCall::Len
            | DequeCall::Items
            | DequeCall::Has { .. } => None,
        }
    }

    /// Whether the call takes the locks of what it names from the start.
    pub fn is_locked(&self) -> bool
        ensures { result ≡ is_locked_deque self.now }
    {
        match self {
            DequeCall::Get { .. } | DequeCall::Len | DequeCall::Items => false,
            DequeCall::Append { .. }
            | DequeCall::AppendLeft { .. }
            | DequeCall::Pop
            | DequeCall::PopLeft
            | DequeCall::Extend { .. }
            | DequeCall::ExtendLeft { .. }
            | DequeCall::Rotate { .. }
            | DequeCall::Clear
            | DequeCall::Has { .. }
            | DequeCall::Iter { .. } => true,
        }
    }

    /// What the call does to tables.
    pub fn table_change(&self) -> TableChange
        ensures { result ≡ deque_change self.now }
    {
        match *self {
            DequeCall::Append { .. }
            | DequeCall::AppendLeft { .. }
            | DequeCall::Extend { .. }
            | DequeCall::ExtendLeft { .. } => TableChange::Grows,
            DequeCall::Clear => TableChange::GivesUp,
            DequeCall::Pop
            | DequeCall::PopLeft
            | DequeCall::Rotate { .. }
            | DequeCall::Get { .. }
            | DequeCall::Len
            | DequeCall::Items
            | DequeCall::Has { .. }
            | DequeCall::Iter { .. } => TableChange::Stays,
        }
    }
}
