// Runs the recorder on the published cases, on long random lists of events, and on pairs of lists
// that differ only where modes are off. The gate compares what it prints with what the model prints.
#![tactic(auto)]

mod bench_lines;
mod counts;
mod csrs;
mod depths;
mod draw_events;
mod draw_states;
mod edges;
mod events;
mod lines;
mod mispredictions;
mod pairs;
mod random;
mod random_run;
mod steps;
mod switch;

fn main(rt: HostRuntime) {
    bench_lines::report(&rt);
    random_run::report(&rt);
    pairs::report(&rt);
}
