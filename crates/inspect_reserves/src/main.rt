// The test program `inspect`, run on histories with reservations.
#![tactic(auto)]

fn main(rt: HostRuntime) {
    inspect_run::main_loop(rt.stdin());
}
