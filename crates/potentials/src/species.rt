// What is asked of the two species tables, a desk's own and the house's. Total, and also for the crates above.
ghost use Rattle.std.specs.Prelude.{◌≡◌, length};
ghost use Rattle.potentials.specs.Calls.{tables_fit, order_asked};

use answer::Refusal;
use potentials_pair::SpeciesTables;

// The lengths: two floats an id, in both.
pub fn tables_fit(tables: &SpeciesTables) -> bool
    ensures { result ≡ tables_fit (length tables.now.own_ids.now) (length tables.now.own_params.now) (length tables.now.ids.now) (length tables.now.params.now) }
{
    (tables.own_params.len() / 2 == tables.own_ids.len())
        & (tables.own_params.len() % 2 == 0)
        & (tables.params.len() / 2 == tables.ids.len())
        & (tables.params.len() % 2 == 0)
}

// Refusal 5, the own table first.
pub fn asked_order(tables: &SpeciesTables) -> Result<(), Refusal>
    ensures { result ≡ order_asked tables.now.own_ids.now tables.now.ids.now }
{
    if !potentials_pair::species::is_rising(tables.own_ids) {
        return Err(Refusal::Order);
    }
    if !potentials_pair::species::is_rising(tables.ids) {
        return Err(Refusal::HouseOrder);
    }
    Ok(())
}
