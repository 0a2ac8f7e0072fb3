// What the decimal form of a number is, stated where the check asks for its proof.
ghost use Rattle.decimal.specs.Laws.{DecimalForm};

pub fn decimal_form()
    ensures { DecimalForm }
{}
