// The lamps of a page, read from its cells.
ghost use Rattle.std.specs.Prelude.{◌≡◌, ◌+◌, ◌*◌, ◌^◌, ◌<◌, ◌≤◌, map, length, if◌then◌else◌};
ghost use Rattle.charts.specs.Tracing.{is_one, lit_block, set_of};
ghost use Rattle.loading.specs.Models.{all_cells};

use loading::Block;
use signals::Signal;

// The lit blocks, bit b for block b.
pub fn lit_set(blocks: &[Block]) -> u64
    requires { length blocks.now ≤ 64 }
    ensures { result ≡ set_of (map lit_block (all_cells blocks.now)) }
{
    blocks.iter().rev().fold(0, |later, block| {
        with_block(is_lit_block(&block.cells), later)
    })
}

// The set one block earlier: all bits one place up, and the earlier block lowest.
fn with_block(lit: bool, later: u64) -> u64
    ensures { later < 2 ^ 63 → result ≡ (if lit then 1 else 0) + 2 * later }
{
    if lit { later << 1 | 1 } else { later << 1 }
}

// A block is lit if its cells are 1.
fn is_lit_block(cells: &[Signal]) -> bool
    ensures { result ≡ lit_block cells.now }
{
    cells.iter().all(is_one)
}

// Kept by cases, as the rules say it.
fn is_one(cell: &Signal) -> bool
    ensures { result ≡ is_one cell.now }
{
    match *cell {
        Signal::Bool(b) => b,
        Signal::Int(n) => n == 1,
        Signal::Dint(n) => n == 1,
        Signal::Real(x) => x == 1.0,
    }
}
