//! Laws of the definitions that the contracts cite. Each is the contract of a function that does
//! nothing.

ghost use Rattle.std.specs.Prelude.{◌≡◌, ◌++◌, ℕ, List, Option, Some};
ghost use Rattle.peers_msg.specs.Numeral.{IsSpelling, value};
ghost use Rattle.peers_msg.specs.Spelling.{integer_spelling, message_spelling, IsSendable};
ghost use Rattle.peers_msg.specs.Spelling.{IsInRange, IsInOrder, as_written, in_order};
ghost use Rattle.peers_msg.specs.Message.{after_message, reading_of, first_of, reading_by};
ghost use Rattle.peers_msg.specs.Feed.{goes_on};
ghost use Rattle.peers_msg.specs.Reads.{AreBytes, Reads};
ghost use Rattle.peers_msg.specs.declared.message.Definition.{Definition};
ghost use Rattle.peers_msg.specs.declared.message.Message.{Message};
ghost use Rattle.peers_msg.specs.declared.fault.WireCause.{WireCause};

/// Each number has one spelling, and no spelling begins another.
pub fn one_spelling()
    ensures spelled { (n : ℕ) → IsSpelling (integer_spelling n) × (value (integer_spelling n) ≡ n) }
    ensures only { (a b : List ℕ) → IsSpelling a → IsSpelling b → value a ≡ value b → a ≡ b }
    ensures alone { (a b x y : List ℕ) → IsSpelling a → IsSpelling b → a ++ x ≡ b ++ y → a ≡ b }
{}

/// All bytes have one reading: whole messages one after the other, and then a rest or a fault. It
/// is the one that `reading_of` gives.
pub fn one_reading()
    ensures reads { (bytes : List ℕ) → AreBytes bytes
        → Reads bytes (reading_of bytes).messages (reading_of bytes).fault }
    ensures only { (bytes : List ℕ) (messages : List Message) (end : Option WireCause)
        → AreBytes bytes
        → Reads bytes messages end
        → (messages ≡ (reading_of bytes).messages) × (end ≡ (reading_of bytes).fault) }
{}

/// More bytes keep the messages that were read, and behind a fault they change nothing.
pub fn more_bytes()
    ensures keeps { (bytes more : List ℕ) → (others : List Message)
        × ((reading_of (bytes ++ more)).messages ≡ (reading_of bytes).messages ++ others) }
    ensures ends { (bytes more : List ℕ) (cause : WireCause) → (reading_of bytes).fault ≡ Some cause
        → reading_of (bytes ++ more) ≡ reading_of bytes }

    // The reading goes on from its rest.
    ensures goes_on { (bytes more : List ℕ)
        → reading_of (bytes ++ more) ≡ goes_on (reading_of bytes) more }
{}

/// A reading is that of its first message, and then that of the bytes after it.
pub fn first_message()
    ensures { (bytes : List ℕ) → reading_of bytes ≡ reading_by reading_of bytes (first_of bytes) }
{}

/// What is written is read again, whatever follows it: a definition with its parameters in order,
/// which leaves those as they are that ascend.
pub fn written_is_read()
    ensures read { (message : Message) (more : List ℕ) → IsSendable message → IsInRange message
        → reading_of (message_spelling message ++ more)
        ≡ after_message (as_written message) (reading_of more) }
    ensures same { (d : Definition) → IsInOrder d → in_order d ≡ d }
{}
