//! What holds of deques, whatever calls are made. The functions do nothing: their contracts are the
//! laws.
ghost use Rattle.std.specs.Prelude.{◌≡◌, ◌≢◌, ℕ, List, Option, [], ◌++◌, reverse, fold, ℤ, pos, negsuc, neg_ℤ, suc, Some};
ghost use Rattle.ft_model.specs.declared.data.Value.{Value};
ghost use Rattle.ft_model.specs.declared.reply.Reply.TheVariants as reply;
ghost use Rattle.ft_model.specs.declared.reply.Raise.TheVariants as raise;
ghost use Rattle.ft_model.specs.declared.cursor.Cursor.TheVariants as cursor;
ghost use Rattle.ft_model.specs.Cursors.{deque_next};
ghost use Rattle.ft_model.specs.Deques.{DequeContent, IsDeque, right_within, left_within, deque_append, deque_append_left};
ghost use Rattle.ft_model.specs.Deques.{deque_extend, deque_extend_left, deque_pop, deque_pop_left};
ghost use Rattle.ft_model.specs.Deques.{deque_rotate, deque_clear, last_item, first_item, IsLaterDeque};

/// What a bounded deque keeps is the last of what was appended, as much as its bound allows, and where
/// it was appended on the left the first of it.
pub fn bounds_keep_what_came_last()
    ensures right { (deque : DequeContent) (values : List Value) → IsDeque deque.bound deque.items →
        (fold deque_append deque values).items ≡ right_within deque.bound (deque.items ++ values) }
    ensures left { (deque : DequeContent) (values : List Value) → IsDeque deque.bound deque.items →
        (fold deque_append_left deque values).items ≡ left_within deque.bound (reverse values ++ deque.items) }
{}

/// `extend` drops once what appending the others one by one would drop.
pub fn extending_appends_one_by_one()
    ensures right { (deque : DequeContent) (others : List Value) → IsDeque deque.bound deque.items →
        (deque_extend deque others).items ≡ (fold deque_append deque others).items }
    ensures left { (deque : DequeContent) (others : List Value) → IsDeque deque.bound deque.items →
        (deque_extend_left deque others).items ≡ (fold deque_append_left deque others).items }
{}

/// Rotating back by as many steps changes nothing but how often the deque was changed.
pub fn rotations_go_back()
    ensures { (deque : DequeContent) (steps : ℤ) →
        (deque_rotate (deque_rotate deque steps) (neg_ℤ steps)).items ≡ deque.items }
{}

/// A step to the right puts the last item on the left, as `appendleft` of what `pop` gives does; a step to the
/// left puts the first item on the right; and a rotation by more is so many of these steps.
pub fn rotations_go_by_steps()
    ensures right { (deque : DequeContent) (value : Value) → IsDeque deque.bound deque.items →
        last_item deque.items ≡ Some value →
        (deque_rotate deque (pos 1)).items ≡ (deque_append_left (deque_pop deque) value).items }
    ensures left { (deque : DequeContent) (value : Value) → IsDeque deque.bound deque.items →
        first_item deque.items ≡ Some value →
        (deque_rotate deque (negsuc 0)).items ≡ (deque_append (deque_pop_left deque) value).items }
    ensures none { (deque : DequeContent) → (deque_rotate deque (pos 0)).items ≡ deque.items }
    ensures more_right { (deque : DequeContent) (steps : ℕ) →
        (deque_rotate deque (pos (suc steps))).items ≡ (deque_rotate (deque_rotate deque (pos steps)) (pos 1)).items }
    ensures more_left { (deque : DequeContent) (below : ℕ) →
        (deque_rotate deque (negsuc (suc below))).items ≡
        (deque_rotate (deque_rotate deque (negsuc below)) (negsuc 0)).items }
{}

/// Each call leaves the bound and keeps to it, and raises the number of moves where it changes anything:
/// moves never fall, and where they are the same the deque is.
pub fn changes_are_counted()
    ensures append { (deque : DequeContent) (value : Value) → IsDeque deque.bound deque.items →
        IsLaterDeque deque (deque_append deque value) × IsLaterDeque deque (deque_append_left deque value) }
    ensures extend { (deque : DequeContent) (others : List Value) → IsDeque deque.bound deque.items →
        IsLaterDeque deque (deque_extend deque others) × IsLaterDeque deque (deque_extend_left deque others) }
    ensures pop { (deque : DequeContent) → IsDeque deque.bound deque.items →
        IsLaterDeque deque (deque_pop deque) × IsLaterDeque deque (deque_pop_left deque) }
    ensures rotate { (deque : DequeContent) (steps : ℤ) → IsDeque deque.bound deque.items →
        IsLaterDeque deque (deque_rotate deque steps) }
    ensures clear { (deque : DequeContent) → IsDeque deque.bound deque.items → IsLaterDeque deque (deque_clear deque) }
    ensures more { (first second third : DequeContent) → IsLaterDeque first second → IsLaterDeque second third →
        IsLaterDeque first third }
    ensures start { (bound : Option ℕ) → IsDeque bound [] }
{}

/// A cursor that answered that its deque was changed since it was made stays as it is and answers so for good.
/// One that answers otherwise finds the deque as it was made for.
pub fn changed_deques_are_reported_for_good()
    ensures for_good { (made now later : DequeContent) (container index : ℕ) →
        IsLaterDeque made now → IsLaterDeque now later →
        (deque_next now container made.moves index).reply ≡ reply.Raised raise.Moved →
        deque_next later container made.moves index ≡ deque_next now container made.moves index }
    ensures stays { (made now : DequeContent) (container index : ℕ) → IsLaterDeque made now →
        (deque_next now container made.moves index).reply ≡ reply.Raised raise.Moved →
        (deque_next now container made.moves index).cursor ≡ cursor.Deque container made.moves index }
    ensures unchanged { (made now : DequeContent) (container index : ℕ) → IsLaterDeque made now →
        (deque_next now container made.moves index).reply ≢ reply.Raised raise.Moved → now ≡ made }
{}
