// What a region costs: from the depths of its rows, on one line, the moves of a request and of a drain, and their bytes.
#![tactic(auto)]

mod depths;
mod reply;
mod report;

use anyhow::anyhow;
use reply::{Reply, answer};

fn main(rt: HostRuntime) -> anyhow::Result<()> {
    let mut line = String::new(rt.alloc());
    rt.read_line(&mut line)?;
    let reply = answer(rt.alloc(), line.as_str())?;
    print!(rt; "{reply}")?;
    match reply {
        Reply::Quote(_) => Ok(()),
        Reply::NoQuote(_) => Err(anyhow!("no quote")),
    }
}

#[cfg(test)]
mod tests;
