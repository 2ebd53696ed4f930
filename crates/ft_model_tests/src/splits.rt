//! Which tables dicts take that start split, and which deques take: worked cases of the definitions, each by
//! hand. The functions do nothing: their contracts are the cases.
ghost use Rattle.std.specs.Prelude.{◌≡◌, ◌++◌, [], ◌∷◌, Some, None, true, false};
ghost use Rattle.ft_model.specs.declared.data.Value.TheVariants as value;
ghost use Rattle.ft_model.specs.declared.call.Call.TheVariants as call;
ghost use Rattle.ft_model.specs.declared.call.DictCall.TheVariants as dict;
ghost use Rattle.ft_model.specs.declared.call.DequeCall.TheVariants as deque;
ghost use Rattle.ft_model_tests.specs.Splits.{int_key, class_after, table_after, split_after, of_dict, set, set_first, set_other};
ghost use Rattle.ft_model_tests.specs.Splits.{of_deque, append_often, append_other, deque_table_after};

/// A new key that is the next of the shared ones leaves the dict split and takes no table; so does a new value.
pub fn keys_in_order_stay_split()
    ensures first { class_after [] (set 1) ≡ None }
    ensures next { class_after (set_first 9) (set 10) ≡ None }
    ensures default { class_after (set_first 1) (of_dict (dict.SetDefault (int_key 2) value.Nothing)) ≡ None }
    ensures value { class_after (set_first 3) (set 1) ≡ None }
    ensures present { class_after (set_first 3) (of_dict (dict.SetDefault (int_key 2) value.Nothing)) ≡ None }
    ensures split { split_after (set_first 10 ++ set 4 ∷ []) ≡ true }
{}

/// A new key out of order ends it: the table is that of a dict with so many pairs.
pub fn keys_out_of_order_take_tables()
    ensures first { class_after [] (set 2) ≡ Some 3 }
    ensures skips { class_after (set_first 1) (set 3) ≡ Some 3 }
    ensures unknown { class_after (set_first 3) (set 11) ≡ Some 4 }
    ensures past { class_after (set_first 10) (set 11) ≡ Some 5 }
    ensures default { class_after [] (of_dict (dict.SetDefault (int_key 7) value.Nothing)) ≡ Some 3 }
    ensures table { table_after (set_first 3 ++ set 11 ∷ []) ≡ record { class = Some 4; fill = 4; keys = [] } }
{}

/// `update` ends it where it adds a key, also the next one, and leaves it where it adds none.
pub fn updates_that_add_take_tables()
    ensures adds { class_after (set_other 1 ∷ []) (of_dict (dict.Update 1)) ≡ Some 3 }
    ensures more { class_after (set_other 6 ∷ set_first 5) (of_dict (dict.Update 1)) ≡ Some 4 }
    ensures none { class_after (set_other 1 ∷ set 1 ∷ []) (of_dict (dict.Update 1)) ≡ None }
    ensures itself { split_after (set_first 2 ++ of_dict (dict.Update 0) ∷ []) ≡ true }
    ensures ends { split_after (set_other 1 ∷ of_dict (dict.Update 1) ∷ []) ≡ false }
{}

/// A pair that is taken out ends it: the table is that for the pairs that are left, and none for none.
pub fn pairs_taken_out_take_tables()
    ensures del { class_after (set_first 2) (of_dict (dict.Del (int_key 1))) ≡ Some 3 }
    ensures pop { class_after (set_first 10) (of_dict (dict.Pop (int_key 10))) ≡ Some 5 }
    ensures pop_or { class_after (set_first 5) (of_dict (dict.PopOr (int_key 3) value.Nothing)) ≡ Some 4 }
    ensures pop_item { class_after (set_first 4) (of_dict dict.PopItem) ≡ Some 3 }
    ensures last { class_after (set_first 1) (of_dict (dict.Del (int_key 1))) ≡ None }
    ensures absent { class_after (set_first 1) (of_dict (dict.PopOr (int_key 2) value.Nothing)) ≡ None }
    ensures left { table_after (set_first 2 ++ of_dict dict.PopItem ∷ []) ≡ record { class = Some 3; fill = 1; keys = [] } }
    ensures none_left { table_after (set 1 ∷ of_dict dict.PopItem ∷ []) ≡ record { class = None; fill = 0; keys = [] } }
    ensures stays { split_after (set 1 ∷ of_dict (dict.PopOr (int_key 2) value.Nothing) ∷ []) ≡ true }
{}

/// `clear` and a copy onto it end it for good, and a copy of it leaves it as it is.
pub fn clears_and_copies_end_it()
    ensures clear { class_after (set_first 2) (of_dict dict.Clear) ≡ None }
    ensures cleared { split_after (of_dict dict.Clear ∷ []) ≡ false }
    ensures for_good { class_after (set 1 ∷ of_dict dict.Clear ∷ []) (set 1) ≡ Some 3 }
    ensures copied { class_after (set_other 1 ∷ set_other 2 ∷ []) (call.Dict 1 (dict.CopyTo 0)) ≡ Some 3 }
    ensures copy_ends { split_after (call.Dict 1 (dict.CopyTo 0) ∷ []) ≡ false }
    ensures copy_of { class_after (set_first 4) (of_dict (dict.CopyTo 1)) ≡ Some 4 }
    ensures stays { split_after (set_first 4 ++ of_dict (dict.CopyTo 1) ∷ []) ≡ true }
{}

/// A deque takes the least table with room for all that it has after the call, what it drops aside, and `clear`
/// gives it up.
pub fn deques_grow_like_lists()
    ensures first { class_after [] (of_deque (deque.Append value.Nothing)) ≡ Some 3 }
    ensures left { class_after [] (of_deque (deque.AppendLeft value.Nothing)) ≡ Some 3 }
    ensures room { class_after (append_often 7) (of_deque (deque.Append value.Nothing)) ≡ None }
    ensures full { class_after (append_often 8) (of_deque (deque.AppendLeft value.Nothing)) ≡ Some 4 }
    ensures extend { class_after (append_other 20) (of_deque (deque.Extend 4)) ≡ Some 5 }
    ensures itself { class_after (append_often 9) (of_deque (deque.ExtendLeft 2)) ≡ Some 5 }
    ensures bounded { class_after (append_other 20) (call.Deque 3 (deque.Extend 4)) ≡ Some 3 }
    ensures empty { class_after [] (of_deque (deque.Extend 4)) ≡ None }
    ensures pop { class_after (append_often 8) (of_deque deque.Pop) ≡ None }
    ensures kept { deque_table_after (append_often 9 ++ of_deque deque.PopLeft ∷ []) ≡ record { class = Some 4; fill = 0; keys = [] } }
    ensures clear { deque_table_after (append_often 9 ++ of_deque deque.Clear ∷ []) ≡ record { class = None; fill = 0; keys = [] } }
{}
