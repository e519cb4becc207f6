// Makes the calls whose edges no bench file can show, and prints what comes back: values and never a judgement on them.
// What it must print stands in the file stdout. The program stops at the first write that fails, and prints nothing
// after it.
//
// A line has the name of the call, the numbers that are the case, and after a colon what comes back, all in decimal. A
// call answers by its number and its place, 0 0 where it is done.
#![tactic(auto)]

mod lent;
mod parts;
mod pointers;
mod print;
mod records;
mod words;

use std::io;

fn main(rt: HostRuntime) -> io::Result<()> {
    let rt = &rt;
    print!(rt; "call, case: what comes back")?;
    pointers::all(rt)?;
    parts::all(rt)?;
    lent::all(rt)?;
    records::rounds(rt)?;
    records::writer(rt)?;
    records::reader(rt)?;
    println!(rt; "")
}
