//! Laws of the definitions that the contracts cite. Each is the contract of a function that does
//! nothing.

ghost use Rattle.std.specs.Prelude.{◌≡◌, ◌<◌, ◌≤◌, ◌++◌, ◌∷◌, ℕ, List, Some, None, length};
ghost use Rattle.agg_types.specs.declared.column.Col.{Col};
ghost use Rattle.peers_msg.specs.declared.message.Definition.{Definition};
ghost use Rattle.update_values.specs.Lack.{lack_of};
ghost use Rattle.update_values.specs.Layout.{cell_place, layout_of, readable, types_read};
ghost use Rattle.update_values.specs.Values.{blank, cell_of};
ghost use Rattle.update_values.specs.declared.lack.Lack.{Lack};
ghost use Rattle.update_values.specs.declared.layout.Place.{Place};

/// A column that lacks counts 0, whatever is read. One that doesn't lack is read under every list
/// of columns that has it.
pub fn lacks()
    ensures zero { (d : Definition) (col : Col × ℕ) (lack : Lack) (values : List (List ℕ))
        → lack_of d col ≡ Some lack → length values ≤ readable (layout_of d)
        → cell_of (layout_of d) values col ≡ blank col.0 }
    ensures read { (d : Definition) (col : Col × ℕ) (front back : List (Col × ℕ))
        → lack_of d col ≡ None
        → (place : Place) × (cell_place (layout_of d) col ≡ Some place)
        × (place.kind < types_read (layout_of d) (front ++ col ∷ back)) }
{}
