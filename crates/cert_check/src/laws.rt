// The laws, each as the contract of a call that does nothing.
ghost use Rattle.cert_check.specs.Laws.{VerdictOneLaw, RefusalOneLaw, NotBothLaw, WrittenLaw};

/// Accepted bytes have one verdict.
pub fn verdict_one_law()
    ensures { VerdictOneLaw }
{}

/// Refused bytes have one first fault.
pub fn refusal_one_law()
    ensures { RefusalOneLaw }
{}

/// Accepted bytes are not refused.
pub fn not_both_law()
    ensures { NotBothLaw }
{}

/// The lines of a certificate on which no rule fails are accepted, whoever wrote it.
pub fn written_law()
    ensures { WrittenLaw }
{}
