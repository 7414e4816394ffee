// The test program `inspect`, run on random lines that damage what the calls are lent.
#![tactic(auto)]

fn main(rt: HostRuntime) {
    inspect_run::main_loop(rt.stdin());
}
