//! What holds of the lines of commands and of the texts of answers. Each law stands on a function
//! that does nothing: its clause is the law.

ghost use Rattle.std.specs.Prelude.{◌≡◌, ℕ, true, false, List, [], ◌∷◌, map, Some, Ok};
ghost use Rattle.std.specs.List.{flat_map};
ghost use Rattle.agg_types.specs.Check.{config_faults};
ghost use Rattle.agg_types.specs.declared.config.Cond.{Cond};
ghost use Rattle.agg_types.specs.declared.event.Select.TheVariants.{Conds};
ghost use Rattle.fleet_model.specs.Answers.{summed};
ghost use Rattle.fleet_model.specs.State.{State};
ghost use Rattle.fleet_model.specs.Values.{cols_of, meets};
ghost use Rattle.fleet_model.specs.declared.summed.Summed.{Summed};
ghost use Rattle.line_words.specs.Words.{lines_of};
ghost use Rattle.show_clear.specs.Answer.{IsAnswer, all_hold, rows_text};
ghost use Rattle.show_clear.specs.AnswerLines.{AreAnswerLines, is_answer_line};
ghost use Rattle.show_clear.specs.Explained.{explained_refusal};
ghost use Rattle.show_clear.specs.Parse.{command_of};
ghost use Rattle.show_clear.specs.People.{IsPeoplesAnswer};
ghost use Rattle.show_clear.specs.Refusal.{refusal_text};
ghost use Rattle.show_clear.specs.Selected.{key_row, taken_keys};
ghost use Rattle.show_clear.specs.Written.{can_ask, command_line};
ghost use Rattle.show_clear.specs.declared.command.Command.{Command};
ghost use Rattle.show_clear.specs.declared.fault.CommandFault.{CommandFault};
ghost use Rattle.show_clear.specs.declared.refused.Refused.{Refused};

/// Conditions hold of the row that is shown of a key where a clear judges that the key meets them.
/// So a table is shown by conditions as the rows of exactly the keys that a clear by them takes.
pub fn what_is_shown_is_what_a_clear_takes()
    ensures conditions { (state : State) (table : ℕ) (key : List ℕ) (conds : List Cond)
        (sums : Summed) → summed state table key ≡ Some sums
        → all_hold conds sums
        ≡ meets (cols_of state.config.tables table) state.rows table key state.moment conds }
    ensures rows { (state : State) (table : ℕ) (conds : List Cond)
        → rows_text state table (Conds conds)
        ≡ flat_map (key_row state table) (taken_keys state table (Conds conds)) }
{}

/// No line of an answer is empty or a refusal's, and each has its LF. So who reads answers sees by
/// their lines where one ends, at an empty line, and whether a command was refused. The same holds
/// of what people are told: an explained refusal is one line, whatever the refused line has.
///
/// It holds of each state of a book: its configuration has no faults
/// (`fleet_model::laws::states_are_sound`).
pub fn answers_are_no_refusals()
    ensures answers { (state : State) (command : Command) (text : List ℕ)
        → config_faults state.config ≡ [] → IsAnswer state command text → AreAnswerLines text }
    ensures people { (state : State) (command : Command) (text : List ℕ)
        → config_faults state.config ≡ [] → IsPeoplesAnswer state command text
        → AreAnswerLines text }
    ensures refusals { (fault : CommandFault)
        → map is_answer_line (lines_of (refusal_text fault)) ≡ false ∷ [] }
    ensures explained { (state : State) (line : List ℕ) (refused : Refused)
        → config_faults state.config ≡ []
        → map is_answer_line (lines_of (explained_refusal state line refused)) ≡ false ∷ [] }
{}

/// A command written out is read as that command, for each kind of question and change. Where what
/// it names is there, and its selector or its filter fits, `parse` gives it from its line, unless
/// an allocation fails. A key of no bytes is no word, and so no line names one.
pub fn written_command_is_read()
    ensures { (state : State) (command : Command) → config_faults state.config ≡ []
        → can_ask state command ≡ true
        → command_of state (command_line state command) ≡ Ok command }
{}
