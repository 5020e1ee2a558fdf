//! Laws of the words.
ghost use Rattle.std.specs.Prelude.{◌≡◌, ◌⊎◌, List};
ghost use Rattle.clap.specs.Words.{Text};
ghost use Rattle.coap_arguments.specs.Words.{AsksFor, EntersWrong, IsWrong};
ghost use Rattle.coap_arguments.specs.declared.orders.Order.{Order};
ghost use Rattle.coap_arguments.specs.declared.orders.Wrong.{Wrong};
ghost use Rattle.coap_arguments.specs.declared.orders.Wrong.TheVariants as wrongs;

/// Words have one answer: those that ask for an order are wrong in nothing, and where HEX is wrong nothing else is. Of
/// memory that is refused they say nothing.
pub fn one_answer()
    // Words that ask for an order are wrong in nothing but want of memory.
    ensures order { (words : List Text) (order : Order) (wrong : Wrong) → AsksFor words order → IsWrong words wrong
        → wrong ≡ wrongs.Memory }
    // Where HEX is the hex of no bytes, the words are wrong in nothing else but want of memory.
    ensures hex { (words : List Text) (wrong : Wrong) → EntersWrong words wrongs.Hex → IsWrong words wrong
        → (wrong ≡ wrongs.Hex) ⊎ (wrong ≡ wrongs.Memory) }
{}
