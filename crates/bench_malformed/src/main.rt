// The bench program, run on a random history with lines not in form.
#![tactic(auto)]

fn main(rt: HostRuntime) {
    bench_run::main_loop(rt.stdin());
}
