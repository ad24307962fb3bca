// Laws.
ghost use Rattle.table_config.specs.Tables.{FirstsCount};

/// A law: of the tables of a configuration the first of each name is kept, and no other.
pub fn firsts_count()
    ensures { FirstsCount }
{}
