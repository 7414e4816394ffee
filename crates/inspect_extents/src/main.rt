// The test program `inspect`, run on extents of random volumes.
#![tactic(auto)]

fn main(rt: HostRuntime) {
    inspect_run::main_loop(rt.stdin());
}
