// Puts the same places into each of the four pickers, and prints what each takes, in turn.
#![tactic(auto)]

ghost use Rattle.std.specs.Prelude.{◌≡◌, OnOk};
ghost use Rattle.picker.specs.Meaning.{nowhere};
ghost use Rattle.pickers.specs.All.{put_all};

use anyhow::anyhow;
use picker::fault::PutFault;
use picker::picker::Picker;
use picker::queue::{NewestFirst, OldestFirst};
use ranked::entry::{AmountEntry, MarkerEntry};
use ranked::largest_amount::LargestAmount;
use ranked::lowest_marker::LowestMarker;
use std::alloc::{AllocError, Global};
use std::cmp::Reverse;

// Places with their amounts, in the order in which they are put: some wait twice, and some amounts are equal.
const PLACES: [(u8, u32); 8] = [
    (5, 30),
    (2, 10),
    (9, 30),
    (2, 40),
    (7, 10),
    (5, 30),
    (0, 0),
    (9, 5),
];

// The turn markers of places 0 to 7; place 9 has none.
const MARKERS: [u8; 8] = [3, 0, 2, 9, 9, 1, 0, 2];

// Puts places with their amounts, one after the other, until one is refused.
fn put_all<P: Picker>(picker: &mut P, places: &[(u8, u32)]) -> Result<(), PutFault>
    ensures { OnOk result (P.meaning picker.new ≡ put_all (P.meaning picker.old) places.now) }
{
    for &(place, amount) in places {
        picker.put(place, amount)?;
    }
    Ok(())
}

// A name, and then what a picker takes until nothing waits.
fn taken_line<P: Picker>(heap: Global, name: &str, picker: &mut P) -> Result<String, AllocError>
    ensures { OnOk result ((P.meaning picker.new).waits ≡ nowhere) }
{
    let mut line = String::from_str(heap, name)?;
    while let Some(place) = picker.take() {
        write!(line, " {place}")?;
    }
    Ok(line)
}

// The line of one picker, in which nothing waits yet.
fn show<P: Picker>(rt: &HostRuntime, name: &str, picker: &mut P) -> anyhow::Result<()> {
    put_all(picker, &PLACES).map_err(|_| anyhow!("a place was refused"))?;
    rt.println(taken_line(rt.alloc(), name, picker)?)?;
    Ok(())
}

fn run(rt: &HostRuntime) -> anyhow::Result<()> {
    show(rt, "oldest first", &mut OldestFirst::new())?;
    show(rt, "newest first", &mut NewestFirst::new())?;
    let mut marks = [MarkerEntry { rank: 0, place: 0 }; 8];
    show(
        rt,
        "lowest marker",
        &mut LowestMarker::new(&MARKERS, &mut marks),
    )?;
    let mut amounts = [AmountEntry {
        rank: Reverse(0),
        place: 0,
    }; 8];
    show(rt, "largest amount", &mut LargestAmount::new(&mut amounts))
}

fn main(rt: HostRuntime) -> anyhow::Result<()> {
    run(&rt)
}
