//! Laws of the definitions that the contracts cite. Each is the contract of a function that does
//! nothing.

ghost use Rattle.std.specs.Prelude.{◌≡◌, ◌≤◌, length, ◌++◌, ℕ, Bool, List, Some, IsTrue};
ghost use Rattle.std.specs.Prelude.{false, ◌||◌, take};
ghost use Rattle.std.specs.List.{list_all, list_any};
ghost use Rattle.agg_types.specs.Fits.{fits};
ghost use Rattle.agg_types.specs.declared.config.Config.{Config};
ghost use Rattle.agg_types.specs.declared.event.What.{What};
ghost use Rattle.session_core.specs.declared.cause.End.{End};
ghost use Rattle.session_core.specs.Asking.{asks_all, is_request};
ghost use Rattle.session_core.specs.Piece.{Setup, end_text, setup_of, welcome};
ghost use Rattle.session_core.specs.Talk.{talk, words_of};
ghost use Rattle.session_core.specs.TalkAnswers.{is_open_or_put};
ghost use Rattle.session_core.specs.Hello.{hello_of};
ghost use Rattle.session_core.specs.HelloLines.{HelloDecides, Verdict};
ghost use Rattle.session_core.specs.InForce.{counted_id, followed_updates, last_id};
ghost use Rattle.agg_types.specs.declared.config.Shape.{Shape};
ghost use Rattle.peers_msg.specs.declared.message.Message.{Message};

/// What a session tells and says stands, whatever follows; and once its talk has ended, more bytes
/// add nothing and leave the end as it is.
pub fn longer_talk()
    ensures facts { (setup : Setup) (seated : Bool) (bytes more : List ℕ)
        → (added : List What) × ((talk setup seated (bytes ++ more)).facts
        ≡ (talk setup seated bytes).facts ++ added) }
    ensures replies { (setup : Setup) (seated : Bool) (bytes more : List ℕ)
        → (added : List ℕ) × ((talk setup seated (bytes ++ more)).replies
        ≡ (talk setup seated bytes).replies ++ added) }
    ensures ended { (setup : Setup) (seated : Bool) (bytes more : List ℕ) (end : End)
        → (talk setup seated bytes).end ≡ Some end
        → ((talk setup seated (bytes ++ more)).end ≡ Some end)
        × ((talk setup seated (bytes ++ more)).facts ≡ (talk setup seated bytes).facts)
        × ((talk setup seated (bytes ++ more)).replies ≡ (talk setup seated bytes).replies) }
{}

/// Every fact fits the configuration, whatever bytes come.
pub fn facts_fit()
    ensures { (config : Config) (seated : Bool) (bytes : List ℕ)
        → IsTrue (list_all (fits config) (talk (setup_of config) seated bytes).facts) }
{}

/// A hello's verdict is that of the first of its three whole lines that has one, and no other.
pub fn hello_lines()
    ensures decides { (me : List ℕ) (peers : List (List ℕ)) (seated : Bool) (bytes : List ℕ)
        → HelloDecides me peers seated bytes (hello_of me peers seated bytes) }
    ensures only { (me : List ℕ) (peers : List (List ℕ)) (seated : Bool) (bytes : List ℕ)
        (verdict : Verdict) → HelloDecides me peers seated bytes verdict
        → verdict ≡ hello_of me peers seated bytes }
{}

/// The last update id of a sender's table id is the explicit one of its last followed update. If
/// that was incremental, it is the last explicit one (0 if none) and as many more as came since,
/// modulo 2^32.
pub fn update_ids()
    ensures { (tables : List Shape) (id : ℕ) (past : List Message)
        → last_id tables id past ≡ counted_id (followed_updates tables id past) }
{}

/// Each fact is an Open or a Put, and there are no more of them than bytes.
pub fn facts_of_bytes()
    ensures kinds { (setup : Setup) (seated : Bool) (bytes : List ℕ)
        → IsTrue (list_all is_open_or_put (talk setup seated bytes).facts) }
    ensures few { (setup : Setup) (seated : Bool) (bytes : List ℕ)
        → length (talk setup seated bytes).facts ≤ length bytes }
{}

/// Replies ask for all exactly where a message before the end is a resync request: those of
/// messages behind others, and each text of replies has an even length, so that another may follow
/// it.
pub fn requests_are_answered()
    ensures asks { (tables : List Shape) (peer : ℕ) (past messages : List Message)
        → asks_all (words_of tables peer past messages).replies
        ≡ list_any is_request (take (words_of tables peer past messages).count messages) }
    ensures behind { (tables : List Shape) (peer : ℕ) (past messages : List Message)
        (others : List ℕ)
        → asks_all ((words_of tables peer past messages).replies ++ others)
        ≡ (asks_all (words_of tables peer past messages).replies || asks_all others) }
    ensures welcome { (others : List ℕ) → asks_all (welcome ++ others) ≡ asks_all others }
    ensures end { (end : End) → asks_all (end_text end) ≡ false }
{}
