//! Laws of texts and trees.

ghost use Rattle.fond_tree.specs.Alike.{EachTextSpellsOneForest, EachTextSpellsOneTree};
ghost use Rattle.fond_tree.specs.Short.{ReadTreesAreShort};
ghost use Rattle.fond_tree.specs.Unique.{EachTextHasOneFault, NoForestHasAFault, NoTreeHasAFault};

/// Two trees that one text spells are alike, place by place and leaf by leaf. So the tree that is read from a text is
/// the only one that the text spells.
pub fn one_tree()
    ensures { EachTextSpellsOneTree }
{}

/// Two forests that one text spells are alike, tree by tree.
pub fn one_forest()
    ensures { EachTextSpellsOneForest }
{}

/// A text that is read as a tree has no fault. So a text is refused if and only if it is read as no tree.
pub fn no_tree_has_a_fault()
    ensures { NoTreeHasAFault }
{}

/// A text that is read as a forest has no fault as the text of a forest.
pub fn no_forest_has_a_fault()
    ensures { NoForestHasAFault }
{}

/// Two faults of one text have the same place and the same code. So the fault with which a text is refused is its
/// only one.
pub fn one_fault()
    ensures { EachTextHasOneFault }
{}

/// A tree that is read from a text has no more tokens than a text may have bytes.
pub fn read_trees_are_short()
    ensures { ReadTreesAreShort }
{}
