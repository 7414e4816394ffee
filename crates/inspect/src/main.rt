// The test program `inspect`, run on lines that make every cause of the table happen.
#![tactic(auto)]

fn main(rt: HostRuntime) {
    inspect_run::main_loop(rt.stdin());
}
