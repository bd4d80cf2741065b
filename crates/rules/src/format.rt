// A format, as a call is given it.
use std::marker::Model;

// The four slices of a format, lent for a call. Clauses see the rules' format (specs/Format).
#[derive(Drop)]
pub struct Format<'a> {
    pub table: &'a [u8],
    pub names: &'a [u8],
    pub references: &'a [u8],
    pub registry: &'a [u8],
}

impl<'a> Model for Format<'a> {
    ghost use Rattle.rules.specs.Format.{Format};

    ghost Value = { Format };

    ghost view = { λ f. record { table = f.table.now; names = f.names.now; references = f.references.now; registry = f.registry.now } };
}
