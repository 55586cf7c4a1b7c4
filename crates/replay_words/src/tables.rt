// The tables, rooms and stores of all calls, by their names. They are made once and lent to one case after the other: to make a store is to write all of it.
ghost use Rattle.std.specs.Prelude.{◌≡◌, []};

use crate::Store;

#[derive(Drop)]
pub struct Tables {
    // the species tables, a desk's own before the house's
    pub own_ids: Store<u32>,
    pub own_params: Store<f64>,
    pub ids: Store<u32>,
    pub params: Store<f64>,
    // what a molecule has
    pub species: Store<u32>,
    pub charges: Store<f64>,
    pub bonds: Store<u32>,
    pub lengths: Store<f64>,
    pub ks: Store<f64>,
    pub angles: Store<u32>,
    pub per_angle: Store<f64>,
    pub masses: Store<f64>,
    pub exclusions: Store<u32>,
    // its places, and the rooms of its list
    pub positions: Store<f64>,
    pub velocities: Store<f64>,
    pub pairs: Store<u32>,
    pub references: Store<f64>,
    pub starts: Store<u32>,
    pub items: Store<u32>,
    pub forces: Store<f64>,
    // of single calls
    pub added: Store<f64>,
    pub coordinates: Store<u32>,
    pub moved: Store<u32>,
    pub labels: Store<u32>,
    pub marks: Store<u32>,
    pub raw: Store<u32>,
    pub table: Store<u32>,
    pub totals: Store<u64>,
    pub sheet: Store<u8>,
}

impl Tables {
    // With nothing in them.
    pub fn new() -> Self
        ensures { (result.own_ids ≡ []) × (result.own_params ≡ []) × (result.ids ≡ []) × (result.params ≡ []) × (result.species ≡ []) × (result.charges ≡ []) × (result.bonds ≡ []) × (result.lengths ≡ []) × (result.ks ≡ []) × (result.angles ≡ []) × (result.per_angle ≡ []) × (result.masses ≡ []) × (result.exclusions ≡ []) × (result.positions ≡ []) × (result.velocities ≡ []) × (result.pairs ≡ []) × (result.references ≡ []) × (result.starts ≡ []) × (result.items ≡ []) × (result.forces ≡ []) × (result.added ≡ []) × (result.coordinates ≡ []) × (result.moved ≡ []) × (result.labels ≡ []) × (result.marks ≡ []) × (result.raw ≡ []) × (result.table ≡ []) × (result.totals ≡ []) × (result.sheet ≡ []) }
    {
        Tables {
            own_ids: Store::new(&[]),
            own_params: Store::new(&[]),
            ids: Store::new(&[]),
            params: Store::new(&[]),
            species: Store::new(&[]),
            charges: Store::new(&[]),
            bonds: Store::new(&[]),
            lengths: Store::new(&[]),
            ks: Store::new(&[]),
            angles: Store::new(&[]),
            per_angle: Store::new(&[]),
            masses: Store::new(&[]),
            exclusions: Store::new(&[]),
            positions: Store::new(&[]),
            velocities: Store::new(&[]),
            pairs: Store::new(&[]),
            references: Store::new(&[]),
            starts: Store::new(&[]),
            items: Store::new(&[]),
            forces: Store::new(&[]),
            added: Store::new(&[]),
            coordinates: Store::new(&[]),
            moved: Store::new(&[]),
            labels: Store::new(&[]),
            marks: Store::new(&[]),
            raw: Store::new(&[]),
            table: Store::new(&[]),
            totals: Store::new(&[]),
            sheet: Store::new(&[]),
        }
    }
}
