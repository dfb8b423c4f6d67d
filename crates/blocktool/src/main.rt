// Writes a block of the commands that it reads, reads it back, and shows what the reader says of it once it is changed.
#![tactic(auto)]

mod script;
mod show;
mod steps;

use anyhow::anyhow;
use script::Script;
use steps::run;

fn read_script(rt: &HostRuntime) -> anyhow::Result<Script> {
    let heap = rt.alloc();
    let mut script = Script::new(heap);
    for (number, text) in (1..u64::MAX).zip(rt.lines(heap)) {
        if let Err(mistake) = script.take(heap, text?.as_str()) {
            return Err(anyhow!(format!(in heap; "line {number}: {mistake}")?));
        }
    }
    Ok(script)
}

fn main(rt: HostRuntime) -> anyhow::Result<()> {
    let script = read_script(&rt)?;
    run(&rt, &script)
}
