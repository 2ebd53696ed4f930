//! What holds of split dicts, of whole walks, of the keys of two dicts and of dumps. The functions do
//! nothing: their contracts are the laws.
ghost use Rattle.std.specs.Prelude.{◌≡◌, ◌↔◌, ℕ, List, [], ◌++◌, true, false, Some, None, length, map, take, reverse, slice_get, option_map};
ghost use Rattle.ft_model.specs.declared.call.Call.{Call};
ghost use Rattle.ft_model.specs.declared.call.Call.TheVariants as call;
ghost use Rattle.ft_model.specs.declared.call.DictCall.TheVariants as dict;
ghost use Rattle.ft_model.specs.declared.content.DictPair.{DictPair};
ghost use Rattle.ft_model.specs.declared.data.Key.{Key};
ghost use Rattle.ft_model.specs.declared.data.Value.{Value};
ghost use Rattle.ft_model.specs.declared.reply.Reply.TheVariants as reply;
ghost use Rattle.ft_model.specs.declared.script.Kind.{Kind};
ghost use Rattle.ft_model.specs.declared.script.Kind.TheVariants as kind;
ghost use Rattle.ft_model.specs.declared.script.Start.{Start};
ghost use Rattle.ft_model.specs.Contents.{DictContent, IsDict, has_key, dict_set, set_and, set_sub, set_or, set_xor};
ghost use Rattle.ft_model.specs.Cursors.{dict_iter, dict_reversed, list_iter, list_reversed};
ghost use Rattle.ft_model.specs.Views.{keys_in, keys_and, keys_sub, keys_or, keys_xor};
ghost use Rattle.ft_model.specs.Worlds.{WorldContent, HandsContent, IsOfKind, dict_at, list_at};
ghost use Rattle.ft_model.specs.Answers.{answer, elements_of, shown_of};
ghost use Rattle.ft_model.specs.TableUses.{StoredWorld, table_at, stored_by, is_split, are_first, ends_split};
ghost use Rattle.ft_model.specs.TablesInOrder.{AreTablesInOrder};
ghost use Rattle.ft_model.specs.Walks.{GivesAll, given_pairs, given_items, key_set, items_call, as_reply};

/// A split dict's pairs are the first of the keys that it shares, in their order. A new key leaves it
/// split exactly where it is the next of them.
pub fn split_dicts_have_their_first_keys()
    ensures first { (stored : StoredWorld) (place : ℕ) → AreTablesInOrder stored → IsOfKind stored.world kind.Dict place →
        is_split (table_at stored.tables place).keys ≡ true →
        keys_in (dict_at stored.world place).pairs
        ≡ take (length (keys_in (dict_at stored.world place).pairs)) (table_at stored.tables place).keys }
    ensures next { (keys : List Key) (old : DictContent) (key : Key) (value : Value) →
        are_first (keys_in old.pairs) keys ≡ true → has_key old.pairs key ≡ false →
        (ends_split keys (dict.Set key value) old (dict_set old key value) ≡ false)
        ↔ (slice_get keys (length (keys_in old.pairs)) ≡ Some key) }
{}

/// A dict that is not split never becomes so, whatever writes come.
pub fn no_dict_is_split_again()
    ensures { (starts : List Start) (before after : List Call) (place : ℕ) →
        (table_at (stored_by starts before).tables place).keys ≡ [] →
        (table_at (stored_by starts (before ++ after)).tables place).keys ≡ [] }
{}

/// A walk gives each pair or item once, in order, and then comes to its end.
pub fn walks_give_all()
    ensures dicts { (world : WorldContent) (place : ℕ) → IsDict (dict_at world place).next (dict_at world place).pairs →
        GivesAll world (dict_iter place (dict_at world place).pairs) (given_pairs (dict_at world place).pairs) }
    ensures lists { (world : WorldContent) (place : ℕ) →
        GivesAll world (list_iter place) (given_items (list_at world place)) }
{}

/// A reversed walk gives what a walk gives, in the opposite order.
pub fn reversed_walks_go_back()
    ensures dicts { (world : WorldContent) (place : ℕ) → IsDict (dict_at world place).next (dict_at world place).pairs →
        GivesAll world (dict_reversed place (dict_at world place).pairs) (reverse (given_pairs (dict_at world place).pairs)) }
    ensures lists { (world : WorldContent) (place : ℕ) →
        GivesAll world (list_reversed place (list_at world place)) (reverse (given_items (list_at world place))) }
{}

/// The four operations on the keys of two dicts are those of sets, in the order of the sets' walks.
pub fn keys_are_combined_as_sets()
    ensures and { (pairs others : List DictPair) →
        elements_of (set_and (key_set pairs) (key_set others).elements).elements ≡ keys_and pairs others }
    ensures sub { (pairs others : List DictPair) →
        elements_of (set_sub (key_set pairs) (key_set others).elements).elements ≡ keys_sub pairs others }
    ensures or { (pairs others : List DictPair) →
        elements_of (set_or (key_set pairs) (key_set others).elements).elements ≡ keys_or pairs others }
    ensures xor { (pairs others : List DictPair) →
        elements_of (set_xor (key_set pairs) (key_set others).elements).elements ≡ keys_xor pairs others }
{}

/// A dump is the world: it shows of each container all that the container itself answers, and changes
/// nothing.
pub fn dumps_show_the_world()
    ensures shown { (world : WorldContent) (hands : HandsContent) →
        (answer world hands call.Dump).reply ≡ reply.World (map shown_of world) }
    ensures each { (world : WorldContent) (hands : HandsContent) (kind : Kind) (place : ℕ) → IsOfKind world kind place →
        option_map as_reply (slice_get (map shown_of world) place) ≡ Some (answer world hands (items_call kind place)).reply }
    ensures unchanged { (world : WorldContent) (hands : HandsContent) → (answer world hands call.Dump).world ≡ world }
{}
