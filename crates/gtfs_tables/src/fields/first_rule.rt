ghost use Rattle.std.specs.Prelude.{◌≡◌};
ghost use Rattle.gtfs_tables.specs.Fields.Rules.{first_of};

/// Of rules in their order, each with whether it is broken, the number of the first that is broken.
pub fn first_rule(rules: &[(u8, bool)]) -> Option<u8>
    ensures { result ≡ first_of rules.now }
{
    'rules: for rule in rules {
        if rule.1 {
            return Some(rule.0);
        }
    }
    None
}
