// What is written reads back as it was.
ghost use Rattle.json_write.specs.Laws.{FieldsNestLess, ListsReadBack, NamesHold, NumbersReadBack, ObjectsReadBack, TextsReadBack};

/// A law: the string of a text stands for that text and for no other, and what any string stands for is UTF-8.
pub fn texts_read_back()
    ensures { TextsReadBack }
{}

/// A law: the decimal digits of a number are a JSON number with that value.
pub fn numbers_read_back()
    ensures { NumbersReadBack }
{}

/// A law: an object that is written of members is an object of these members and no others, and nests one deeper than they.
pub fn objects_read_back()
    ensures { ObjectsReadBack }
{}

/// A law: a name holds in an object what the last of its members with this name holds.
pub fn names_hold()
    ensures { NamesHold }
{}

/// A law: a member of an object nests less deep than the object.
pub fn fields_nest_less()
    ensures { FieldsNestLess }
{}

/// A law: an array that is written of elements is an array of these elements and no others, and nests one deeper than they.
pub fn lists_read_back()
    ensures { ListsReadBack }
{}
