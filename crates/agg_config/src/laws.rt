//! What holds of what a configuration writes. Each law stands on a function that does nothing: its
//! clause is the law.

ghost use Rattle.std.specs.Prelude.{◌≡◌, true, [], Ok, Some};
ghost use Rattle.std.specs.List.{list_all};
ghost use Rattle.agg_types.specs.Check.{all_faults};
ghost use Rattle.agg_types.specs.declared.config.Config.{Config};
ghost use Rattle.line_words.specs.Words.{lines_of};
ghost use Rattle.agg_config.specs.Columns.{in_order, of_column};
ghost use Rattle.agg_config.specs.Declarations.{declared};
ghost use Rattle.agg_config.specs.Reading.{Write};
ghost use Rattle.agg_config.specs.Written.{declaration_line, is_valid, text_of};
ghost use Rattle.line_words.specs.Conditions.{have_bounds};
ghost use Rattle.agg_config.specs.declared.declarations.Declaration.{Declaration};

use agg_types::Col;

/// Putting the columns of a table in order loses none and makes none: each column has the periods
/// that the text gives it, in their order.
pub fn in_order_keeps(col: Col, cols: &[(Col, u32)])
    ensures { of_column col (in_order cols.now) ≡ of_column col cols.now }
{
    let _ = col;
    let _ = cols;
}

/// What a line declares is read from that line, written out: each kind of declaration, where its
/// names and numbers are such as they may be.
pub fn written_line_is_read()
    ensures { (declaration : Declaration) → is_valid declaration ≡ true
        → declared (declaration_line declaration) ≡ Ok (Some declaration) }
{}

/// A configuration that `Config::check` accepts, written out, is read as that configuration: each
/// of its lines passes behind those before it, and together they write it. So `read` gives it,
/// unless an allocation fails.
///
/// The premise on conditions is needed because the check asks nothing of a condition's bound. A
/// bound of 2^64 or more would be written as a number that no line may have; a program's bounds
/// are `u64`, and so always below that.
pub fn written_configuration_is_read()
    ensures { (config : Config) → all_faults config ≡ []
        → list_all (λ filter. have_bounds filter.conds) config.filters ≡ true
        → Write (lines_of (text_of config)) config }
{}
