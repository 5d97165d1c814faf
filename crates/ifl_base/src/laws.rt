//! Laws above the definitions. Each is a function that does nothing, and its contract is the law.

ghost use Rattle.std.specs.Prelude.{◌≡◌, ◌+◌, ◌*◌, ◌^◌, ◌<◌};
ghost use Rattle.ifl_base.specs.declared.ticket.Ticket.{Ticket};

/// Two tickets of one tag are one ticket.
pub fn a_tag_has_one_ticket()
    ensures { (a b : Ticket) → a.index < 2 ^ 32 → b.index < 2 ^ 32 → a.sender * 2 ^ 32 + a.index ≡ b.sender * 2 ^ 32 + b.index → a ≡ b }
{}
