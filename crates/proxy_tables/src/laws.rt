//! What holds of tables, whoever makes them.
ghost use Rattle.proxy_tables.specs.Laws.{OneTables, FewMethods};

/// An interface part stands for one value of its tables at most.
pub fn one_tables()
    ensures { OneTables }
{}

/// No trait has more methods than its part has lines.
pub fn few_methods()
    ensures { FewMethods }
{}
