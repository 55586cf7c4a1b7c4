// A desk's own species rows over the house's table.
ghost use Rattle.std.specs.Prelude.{◌≡◌};
ghost use Rattle.potentials_pair.specs.Species.{tables};
ghost use Rattle.field.specs.Rows.{RowSays, number_in, table_by};

use field_structs::{FlatDone, FlatRow};
use potentials_pair::SpeciesTables;

// Which table a row is a part of, by the lengths of the own table's row and of the row.
fn table_of(own: usize, row: usize) -> u32
    ensures { result ≡ table_by own row }
{
    if row == 0 {
        return 0;
    }
    if own == 0 {
        return 2;
    }
    1
}

fn number_at(row: &[f64], k: usize) -> f64
    ensures { result ≡ number_in row.now k }
{
    if k < row.len() {
        return row[k];
    }
    0.0
}

// The row of a species: of the desk's own table where that has it, else of the house's, else none. Refusals 1, 3, 5 of both tables (5, place 1, for the
// house's ids).
#[unsafe(no_mangle)]
pub extern "C" fn tyn_species_row<'a>(
    own_ids: &[u32],
    own_params: &'a [f64],
    ids: &[u32],
    params: &'a [f64],
    species: u32,
) -> FlatRow
    ensures { RowSays (tables own_ids.now own_params.now ids.now params.now) species result }
{
    let tables = SpeciesTables {
        own_ids,
        own_params,
        ids,
        params,
    };
    let own_alone = SpeciesTables {
        own_ids,
        own_params,
        ids: &[],
        params: &[],
    };
    let done = FlatDone::from(potentials_calls::species_row_asked(&tables, species));
    let own = potentials_calls::species_row(&own_alone, species);
    let row = potentials_calls::species_row(&tables, species);
    FlatRow {
        done,
        table: table_of(own.len(), row.len()),
        epsilon: number_at(row, 0),
        sigma: number_at(row, 1),
    }
}
