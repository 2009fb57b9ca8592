// Takes the lines of standard input into an empty catalogue; prints each line's answer, then the catalogue.
#![tactic(auto)]

mod intake;
mod links;
mod page;
mod stream;
mod text;

fn main(rt: HostRuntime) {
    stream::run(&rt);
}
