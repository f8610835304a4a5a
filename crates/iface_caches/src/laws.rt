//! Laws of the caches for their callers, as contracts of functions that do nothing.
ghost use Rattle.iface_caches.specs.Laws.{ConversionsStayWhole, ConvertedIsTyped, ExternIsAtAddress, ExternIsFoundAgain, ExternsAreOnePerValue, ExternsComeBack, ExternsStayWhole, FunctionsComeBack, LaterStays, LaterStoresStayWhole, NothingAgrees, NothingChanges, NothingIsWhole, ObjectIsFoundAgain, ObjectIsOfAddress, ObjectsDiffer, ObjectsStayWhole, OtherObjectsAgree, OtherObjectsStayWhole, ShownIsLive, WritingAgrees, WritingStaysWhole};

/// Each call leaves later caches, and what is later than those is later than the first.
pub fn order()
    ensures same { NothingChanges }
    ensures through { LaterStays }
{}

/// An address has one object, which is found again, and no other address has it.
pub fn objects()
    ensures of_address { ObjectIsOfAddress }
    ensures found_again { ObjectIsFoundAgain }
    ensures differ { ObjectsDiffer }
{}

/// A value of the host has one address, where it is found again, and it shares it with those alone that are strictly equal to it.
pub fn externs()
    ensures at_address { ExternIsAtAddress }
    ensures found_again { ExternIsFoundAgain }
    ensures one_per_value { ExternsAreOnePerValue }
{}

/// References come back as what they were made of; what is converted has its type, and is live.
pub fn conversions()
    ensures functions { FunctionsComeBack }
    ensures externs { ExternsComeBack }
    ensures typed { ConvertedIsTyped }
    ensures live { ShownIsLive }
{}

/// Each call keeps heap, store and caches whole.
pub fn wholeness()
    ensures nothing_agrees { NothingAgrees }
    ensures nothing { NothingIsWhole }
    ensures objects { ObjectsStayWhole }
    ensures externs { ExternsStayWhole }
    ensures conversions { ConversionsStayWhole }
{}

/// So does what else happens to a heap and a store.
pub fn changes()
    ensures other_objects_agree { OtherObjectsAgree }
    ensures other_objects { OtherObjectsStayWhole }
    ensures writing_agrees { WritingAgrees }
    ensures writing { WritingStaysWhole }
    ensures later_stores { LaterStoresStayWhole }
{}
