// Says what a sheet states: reads it from standard input, and prints its board, or why it is refused.
#![tactic(auto)]

use report::sheets::describe;
use std::io::Read;

// What is read of the input; a sheet has at most 2,500 bytes.
const INPUT_LIMIT: u64 = 4096;

fn run(rt: &HostRuntime) -> anyhow::Result<()> {
    let mut input = Vec::new(rt.alloc());
    rt.stdin().take(INPUT_LIMIT).read_to_end(&mut input)?;
    let text = describe(rt.alloc(), input.as_slice())?;
    rt.print(text.as_str())?;
    Ok(())
}

fn main(rt: HostRuntime) -> anyhow::Result<()> {
    run(&rt)
}
