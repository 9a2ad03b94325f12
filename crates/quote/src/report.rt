// The quote for the depths of a region's rows: a line for each row, and the totals.
ghost use Rattle.quote.specs.declared.depths.TheConstants.{MOST_ROWS};
ghost use Rattle.quote.specs.Quotes.{quote, row_line, row_lines, total_line};
ghost use Rattle.std.specs.Fmt.{WritesOnOk};
ghost use Rattle.std.specs.Prelude.{◌≡◌, ◌≤◌, true, Some, length};
ghost use Rattle.tree.specs.Entries.{all_depths};
ghost use Rattle.tree.specs.Paths.{is_depth};

use crate::depths::Depths;
use std::fmt;
use tree::entries::{BUCKET_BYTES, Work, moves, region_moves};

// One line: a row's depth and moves.
fn write_row<W: fmt::Write>(f: &mut fmt::Formatter<W>, row: usize, depth: u32) -> fmt::Result
    requires { is_depth depth ≡ true }
    ensures { WritesOnOk W.write_str_gives f.old result (row_line row depth) f.new }
{
    let request = moves(Work::Request, depth).unwrap();
    let drain = moves(Work::Drain, depth).unwrap();
    writeln!(
        f,
        "row {row}: depth {depth}, request {request} moves, drain {drain} moves"
    )
}

// A line for each row.
#[tactic(auto, using(crate::proofs::Rows::depth_at))]
fn write_rows<W: fmt::Write>(f: &mut fmt::Formatter<W>, depths: &[u32]) -> fmt::Result
    requires { all_depths depths.now ≡ true }
    ensures { WritesOnOk W.write_str_gives f.old result (row_lines depths.now) f.new }
{
    for (row, depth) in depths.iter().enumerate() {
        write_row(f, row, *depth)?;
    }
    Ok(())
}

// One line: what a call moves in all rows, and its bytes.
fn write_total<W: fmt::Write>(
    f: &mut fmt::Formatter<W>,
    name: &str,
    work: Work,
    depths: &[u32],
) -> fmt::Result
    requires each { all_depths depths.now ≡ true }
    requires few { length depths.now ≤ MOST_ROWS }
    ensures { WritesOnOk W.write_str_gives f.old result (total_line name.now work depths.now) f.new }
{
    let moved = region_moves(work, depths).unwrap();
    let bytes = u64::from(moved) * u64::from(BUCKET_BYTES);
    writeln!(f, "{name}: {moved} moves, {bytes} bytes")
}

impl fmt::Display for Depths {
    ghost output = { λ depths. Some (quote depths.rows.items) };

    fn fmt<W: fmt::Write>(&self, f: &mut fmt::Formatter<W>) -> fmt::Result {
        write_rows(f, &self.rows)?;
        write_total(f, "request", Work::Request, &self.rows)?;
        write_total(f, "drain", Work::Drain, &self.rows)
    }
}
