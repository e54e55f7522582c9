// The sources and the coefficients of a cell.
ghost use Rattle.std.specs.Prelude.{◌≡◌, true, ◌≤◌, pos, ◌-ℤ◌, length};
ghost use Rattle.laws.specs.Tabulate.{tabulate};
ghost use Rattle.restore_cones.specs.Cell.{source_at, coefficient_at, Sources};

use support::are_different;

// A number of two bytes for each source, and for each place behind them.
pub fn read_sources(cell: &[u8]) -> [usize; 11]
    requires { length cell.now ≡ 66 }
    ensures { result ≡ tabulate 11 (source_at cell.now) }
{
    std::array::from_fn(|i| usize::from(cell[1 + 2 * i]) + 256 * usize::from(cell[2 + 2 * i]))
}

// A coefficient's byte counts from -128.
fn coefficient(byte: u8) -> i64
    ensures { result ≡ pos byte -ℤ pos 128 }
{
    i64::from(byte) - 128
}

// A coefficient for each source, and for each place behind them.
pub fn read_coefficients(cell: &[u8], start: usize) -> [i64; 11]
    requires { (length cell.now ≡ 66) × (start ≤ 55) }
    ensures { result ≡ tabulate 11 (coefficient_at cell.now start) }
{
    std::array::from_fn(|i| coefficient(cell[start + i]))
}

// Different nodes of so many.
pub fn are_sources(sources: &[usize], nodes: usize) -> bool
    ensures sound { result ≡ true → Sources nodes sources.now }
    ensures complete { Sources nodes sources.now → result ≡ true }
{
    sources.iter().all(|&source| source < nodes) && are_different(sources)
}
