//! What holds of the definitions themselves. The function does nothing; its contract is the law.

ghost use Rattle.std.specs.Prelude.{◌≡◌, ◌⊎◌, ◌↔◌, Ok, Err};
ghost use Rattle.m4quote.specs.declared.fault.QuoteFault.{QuoteFault};
ghost use Rattle.m4quote.specs.ItemValue.{Span};
ghost use Rattle.m4quote.specs.Faults.{IsFirstFault};
ghost use Rattle.ac_statement.specs.declared.fault.ParseFault.{ParseFault};
ghost use Rattle.ac_statement.specs.declared.fault.ParseFault.TheVariants.{UnknownStatement, Quote};
ghost use Rattle.ac_statement.specs.Inside.{inside};
ghost use Rattle.ac_statement.specs.Standing.{StandsFor};

/// `inside` as a function agrees with `StandsFor`, the relation that states the rules.
pub fn inside_laws()
    ensures text { (arg s : Span) → (inside arg ≡ Ok s) ↔ StandsFor arg s }
    // If `inside` fails, the argument's quotes have an error, or the error is an unknown statement
    // at its offset.
    ensures fault { (arg : Span) (f : ParseFault) → inside arg ≡ Err f
        → ((q : QuoteFault) × IsFirstFault arg.at arg.text q × (f ≡ Quote q))
        ⊎ (f ≡ UnknownStatement arg.at) }
{}
