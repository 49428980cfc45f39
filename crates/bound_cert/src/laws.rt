// Laws of certificate lines, each the contract of a function that does nothing.
ghost use Rattle.bound_cert.specs.Laws.{ReadsBack, ShortLaw, LinesBack, WholeBack, ItemsBack, KeptInOrder, CertSeen, ReadInOrder, SeenLaw, EndInOrder, AnyCut, RulesAgree};

/// The line of an item reads back as the item.
pub fn reads_back()
    ensures { ReadsBack }
{}

/// The line of an item of few numbers is not too long.
pub fn short_law()
    ensures { ShortLaw }
{}

/// The lines of items in order read back as the items.
pub fn lines_back()
    ensures { LinesBack }
{}

/// With an end among the items, the end of their bytes gives no fault.
pub fn whole_back()
    ensures { WholeBack }
{}

/// The lines of the items of a certificate read back as its items.
pub fn items_back()
    ensures { ItemsBack }
{}

/// Items on which no rule fails are in order, where each node has seen just the tables before it.
pub fn kept_in_order()
    ensures { KeptInOrder }
{}

/// Each node among the items of a certificate has seen just the tables before it, where the numbers do not fall and are
/// at most that of the tables.
pub fn cert_seen()
    ensures { CertSeen }
{}

/// The items that bytes give are in order.
pub fn read_in_order()
    ensures { ReadInOrder }
{}

/// Each node that is read has seen just the tables of the lines before it.
pub fn seen_law()
    ensures { SeenLaw }
{}

/// The item that the end of the bytes gives is in order.
pub fn end_in_order()
    ensures { EndInOrder }
{}

/// What bytes give does not depend on how they are cut.
pub fn any_cut()
    ensures { AnyCut }
{}

/// Where a line breaks one of the rules that lines and items both have, its item breaks it, and none below.
pub fn rules_agree()
    ensures { RulesAgree }
{}
