//! Laws of the bytes and the messages of a turn. Each is the contract of a function that does
//! nothing.

ghost use Rattle.std.specs.Prelude.{◌≡◌, ℕ, List, [], None};
ghost use Rattle.agg_types.specs.Check.{all_faults};
ghost use Rattle.agg_types.specs.declared.config.Config.{Config};
ghost use Rattle.peers_msg.specs.Message.{reading_of};
ghost use Rattle.pushed_keys.specs.Pushes.{pushed_of};
ghost use Rattle.pushed_keys.specs.declared.pushed.Pushed.{Pushed};
ghost use Rattle.telling.specs.Telling.{Told, told_after, turn_text};
ghost use Rattle.turn_laws.specs.Heard.{all_under_own, force_behind, heard, in_force};
ghost use Rattle.turn_laws.specs.Keys.{AreSets, IsKept};
ghost use Rattle.turn_laws.specs.Written.{AreTables, messages_of, updates_at};

/// Each table that a configuration without faults pushes has a definition.
pub fn what_is_pushed_has_definitions()
    ensures { (config : Config) → all_faults config ≡ [] → AreTables (pushed_of config) }
{}

/// The bytes of a turn are read as its messages: no byte is left over, and there is no fault.
pub fn a_turn_is_read()
    ensures { (pushed : List Pushed) (sets : List (List (List ℕ))) (now : ℕ) (told : Told)
        → AreTables pushed → AreSets sets → IsKept told
        → reading_of (turn_text pushed sets now told)
        ≡ record { messages = messages_of pushed sets now told; fault = None; rest = [] } }
{}

/// A receiver reads each update of a turn under its table's definition, and behind the turn the
/// table in force is the one defined last.
pub fn updates_are_under_their_tables()
    ensures heard { (pushed : List Pushed) (sets : List (List (List ℕ))) (now : ℕ) (told : Told)
        → heard (in_force pushed told) (messages_of pushed sets now told)
        ≡ all_under_own (updates_at pushed sets now told) 0 pushed }
    ensures behind { (pushed : List Pushed) (sets : List (List (List ℕ))) (now : ℕ) (told : Told)
        → force_behind (in_force pushed told) (messages_of pushed sets now told)
        ≡ in_force pushed (told_after pushed sets now told) }
{}
