// Check 17: one walk over the edges sums what flows out of each node less what flows in, and one over
// the nodes holds it against the supplies.
ghost use Rattle.std.specs.Prelude.{◌≡◌, false};
ghost use Rattle.edge_values.specs.Values.{some_outside, some_unbalanced};
ghost use Rattle.edge_values.specs.Balance.{Walking, NetFlows};

use crate::checks::ProposedValues;

impl ProposedValues<'_, '_> {
    // What flows out of each node, less what flows in.
    fn net_flows(&self) -> [i32; 552]
        requires { Walking self.now.counts.edges self.now.model.now.from.now self.now.model.now.to.now self.now.values.now }
        ensures { NetFlows self.now.counts.edges self.now.counts.edges self.now.model.now.from.now self.now.model.now.to.now self.now.values.now result }
    {
        let mut net = [0; 552];
        for e in 0..self.counts.edges {
            net[self.model.from[e] as usize] += self.values[e];
            net[self.model.to[e] as usize] -= self.values[e];
        }
        net
    }

    // 17. A node is out of balance. 14 has passed.
    pub fn some_unbalanced(&self) -> bool
        requires { some_outside self.now.counts.edges self.now.model.now.max.now self.now.values.now ≡ false }
        ensures { result ≡ some_unbalanced self.now.nodes self.now.counts.edges self.now.model.now.from.now self.now.model.now.to.now
            self.now.model.now.supplies.now self.now.values.now }
    {
        let model = self.model;
        let net = self.net_flows();
        counting::any_below(self.nodes, |v| net[v] != model.supplies[v])
    }
}
