// Answers questions about one face or one friction, a line each, from standard input to standard output.
#![tactic(auto)]

mod answer;
mod checking;
mod line;
mod quantity;
mod question;
mod reading;

use line::answer_line;
use std::io;
use std::io::{BufRead, BufReader};

// A line that is blank or begins with `#` is passed over.
fn is_remark(line: &str) -> bool {
    let text = line.trim();
    text.is_empty() || text.starts_with('#')
}

fn main(rt: HostRuntime) -> io::Result<()> {
    for line in BufReader::new(rt.alloc(), rt.stdin())?.lines(rt.alloc()) {
        let line = line?;
        let text = line.as_str();
        if is_remark(text) {
            continue;
        }
        match answer_line(text) {
            Ok(answer) => rt.println(answer)?,
            Err(why) => rt.println(why)?,
        }
    }
    Ok(())
}
