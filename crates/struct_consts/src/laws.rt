//! Laws over the definitions alone. Each is the contract of a function that does nothing.

ghost use Rattle.struct_consts.specs.Laws.{ColoursAreBelowRank, ClassesHavePairs, TrianglesMove, TrianglesAreConstants, RowsAreValencies, ConstantsSumToSize, SizeIsFibreTimesValency};

/// The colours of a configuration are the numbers below its rank, and each class has a first pair.
pub fn classes_are_numbered()
    ensures colours { ColoursAreBelowRank }
    ensures pairs { ClassesHavePairs }
{}

/// The triangles over a pair, with their colours, are those over each pair of its class. So the
/// triangle numbers of every pair are the intersection numbers of its class, and every point of its
/// fibre sees a class as often as its valency says.
pub fn counts_are_constant()
    ensures moved { TrianglesMove }
    ensures triangles { TrianglesAreConstants }
    ensures valencies { RowsAreValencies }
{}

/// The intersection numbers of a class add up to the number of points, and its size is the size
/// of its fibre times its valency.
pub fn constants_add_up()
    ensures numbers { ConstantsSumToSize }
    ensures sizes { SizeIsFibreTimesValency }
{}
