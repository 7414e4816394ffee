// The test program `inspect`, run on random histories with the counts of status, commit costs and extents in between.
#![tactic(auto)]

fn main(rt: HostRuntime) {
    inspect_run::main_loop(rt.stdin());
}
