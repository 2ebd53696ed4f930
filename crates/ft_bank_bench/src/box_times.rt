//! The measuring of calls on boxes. A call that wasn't done counts for no round.

use crate::bare_steps;
use crate::bare_steps::zeros;
use crate::box_steps::{Boxes, make_all, make_boxes, raise_all, see_box};
use crate::times::{Time, time_of_one};
use std::alloc::Global;
use std::io;
use std::time::Clock;

/// The times of calls on boxes.
#[derive(Clone, Copy, Debug)]
pub struct BoxTimes {
    /// A box that is made and dropped.
    pub makings: Time,
    /// One that its maker raises and drops.
    pub raises: Time,
    /// One that another pass raises and drops.
    pub shared_raises: Time,
}

/// The times of all kinds of calls; nothing where memory ran out.
pub(crate) fn measure_boxes<R: Clock>(
    rt: &R,
    alloc: Global,
    rounds: u32,
) -> io::Result<Option<BoxTimes>> {
    let Some(made) = make_boxes(alloc)? else {
        return Ok(None);
    };
    let Boxes {
        bank,
        mut maker,
        mut other,
    } = made;
    let Some((own, seen)) = see_box(&bank, &mut maker, &mut other) else {
        return Ok(None);
    };
    let (table, mut seat) = zeros(alloc)?;
    let words = &table.shared;
    let raises = Time {
        bank: time_of_one!(rt, raise_all(&bank, &mut maker, own, rounds)),
        bare: time_of_one!(
            rt,
            bare_steps::raise_own_all(words, &mut seat, rounds),
            rounds
        ),
    };
    let shared_raises = Time {
        bank: time_of_one!(rt, raise_all(&bank, &mut other, seen, rounds)),
        bare: time_of_one!(
            rt,
            bare_steps::raise_shared_all(words, &mut seat, rounds),
            rounds
        ),
    };
    let makings = Time {
        bank: time_of_one!(rt, make_all(&bank, &mut maker, rounds)),
        bare: time_of_one!(rt, bare_steps::make_all(words, &mut seat, rounds), rounds),
    };
    Ok(Some(BoxTimes {
        makings,
        raises,
        shared_raises,
    }))
}
