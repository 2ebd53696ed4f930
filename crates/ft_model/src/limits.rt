//! How much a script may have: each limit of the format once, by the names that the definitions
//! give them.
ghost use Rattle.ft_model.specs.Limits.{heap_step, most_bound, most_calls, most_containers, most_cursors, most_heap, most_sections, most_shared, most_shared_keys, most_string_bytes, most_strings, most_tables, most_threads, most_turns};
ghost use Rattle.std.specs.Prelude.{◌≡◌};

/// The most threads.
pub const MOST_THREADS: usize = 64;

/// The most containers of all kinds together.
pub const MOST_CONTAINERS: usize = 256;

/// The most cursors of a thread.
pub const MOST_CURSORS: usize = 256;

/// The most sections of a thread that are open at once.
pub const MOST_SECTIONS: u32 = 16;

/// The most lists of keys that split dicts share.
pub const MOST_SHARED: usize = 64;

/// The most keys of each.
pub const MOST_SHARED_KEYS: usize = 10;

/// The greatest bound of a deque.
pub const MOST_BOUND: u32 = 65_536;

/// The most calls of all threads together.
pub const MOST_CALLS: u32 = 500_000;

/// The most distinct strings.
pub const MOST_STRINGS: usize = 65_536;

/// The most bytes of a string.
pub const MOST_STRING_BYTES: usize = 255;

/// The most tables of a class.
pub const MOST_TABLES: u32 = 1_024;

/// The least number of places in each heap, and the step to the next number.
pub const HEAP_STEP: u32 = 64;

/// The most places in each heap.
pub const MOST_HEAP: u32 = 4_096;

/// The most names in the `order` lines.
pub const MOST_TURNS: usize = 1_000_000;

/// The limits are those of the rule of scripts.
pub fn limits_are_defined()
    ensures threads { MOST_THREADS ≡ most_threads }
    ensures containers { MOST_CONTAINERS ≡ most_containers }
    ensures cursors { MOST_CURSORS ≡ most_cursors }
    ensures sections { MOST_SECTIONS ≡ most_sections }
    ensures shared { MOST_SHARED ≡ most_shared }
    ensures shared_keys { MOST_SHARED_KEYS ≡ most_shared_keys }
    ensures bound { MOST_BOUND ≡ most_bound }
    ensures calls { MOST_CALLS ≡ most_calls }
    ensures strings { MOST_STRINGS ≡ most_strings }
    ensures string_bytes { MOST_STRING_BYTES ≡ most_string_bytes }
    ensures tables { MOST_TABLES ≡ most_tables }
    ensures heap_step { HEAP_STEP ≡ heap_step }
    ensures heap { MOST_HEAP ≡ most_heap }
    ensures turns { MOST_TURNS ≡ most_turns }
{}
