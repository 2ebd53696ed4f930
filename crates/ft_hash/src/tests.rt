//! Hashes that Python gives, those of the FNV page, and probes worked by hand.

ghost use Rattle.ft_hash.specs.Probes.{IsMask};

use crate::{Probe, cover, hash_int, hash_text, walks_stay_in_the_table, walks_try_every_slot};
use std::process::Abort;
use std::test::Fail;

#[test]
fn an_integer_has_the_hash_that_python_gives_it(rt: HostRuntime) -> Result<(), Fail> {
    // CPython's `hash`, on a machine of 64 bits.
    let wanted: [(i64, i64); 26] = [
        (0, 0),
        (-1, -2),
        (-2, -2),
        (2305843009213693951, 0),
        (9223372036854775807, 3),
        (-9223372036854775808, -4),
        (1, 1),
        (2, 2),
        (-3, -3),
        (255, 255),
        (-256, -256),
        (1000000007, 1000000007),
        (-1000000000000, -1000000000000),
        (2147483648, 2147483648),
        (-2147483648, -2147483648),
        (4294967295, 4294967295),
        (9007199254740993, 9007199254740993),
        (1152921504606846976, 1152921504606846976),
        (-1152921504606846981, -1152921504606846981),
        (2305843009213693950, 2305843009213693950),
        (2305843009213693952, 1),
        (-2305843009213693951, 0),
        (-2305843009213693952, -2),
        (4611686018427400249, 12347),
        (-9223372036854775807, -3),
        (3000000000000000000, 694156990786306049),
    ];
    for (integer, hash) in wanted {
        assert_eq!(rt; hash_int(integer), hash.cast_unsigned(), "of {integer}");
    }
    Ok(())
}

#[test]
fn a_hash_is_a_word_in_twos_complement(rt: HostRuntime) -> Result<(), Fail> {
    assert_eq!(rt; hash_int(-1), 18446744073709551614);
    assert_eq!(rt; hash_int(-9223372036854775808), 18446744073709551612);
    Ok(())
}

#[test]
fn a_text_has_its_fnv_hash(rt: HostRuntime) -> Result<(), Fail> {
    // The first three are of the authors' own list; the others were computed apart, in Python.
    let wanted: [(&str, u64); 6] = [
        ("", 0xcbf29ce484222325),
        ("a", 0xaf63dc4c8601ec8c),
        ("foobar", 0x85944171f73967e8),
        ("key", 0x3dc94a19365b10ec),
        ("é", 0x0ac21707b7181e01),
        ("λ𝄞", 0x273ec030ba2def07),
    ];
    for (text, hash) in wanted {
        assert_eq!(rt; hash_text(text), hash, "of {text}");
    }
    Ok(())
}

// The first positions of the hash's probe, in order.
fn check_probe(rt: &impl Abort, hash: u64, mask: u64, wanted: &[u64])
    requires { IsMask mask }
{
    let mut probe = Probe::new(hash, mask);
    for slot in wanted {
        assert_eq!(rt; probe.next(), *slot);
    }
}

#[test]
fn a_probe_goes_through_all_slots(rt: HostRuntime) -> Result<(), Fail> {
    check_probe(&rt, 0, 7, &[0, 1, 6, 7, 4, 5, 2, 3]);
    let of_minus_one = [6, 6, 6, 6, 6, 6, 6, 6, 6, 6, 6, 6, 6, 7, 4, 5, 2, 3, 0, 1];
    check_probe(&rt, hash_int(-1), 7, &of_minus_one);
    let of_a = [12, 1, 1, 9, 14, 10, 5, 3, 12, 27, 0, 31, 6, 31, 28, 13];
    check_probe(&rt, hash_text("a"), 31, &of_a);
    cover();
    walks_stay_in_the_table();
    walks_try_every_slot();
    Ok(())
}
