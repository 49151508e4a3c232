//! The cluster that a call keeps.
ghost use Rattle.std.specs.Prelude.{◌≡◌, None};
ghost use Rattle.ttp_top.specs.Calls.Answer.{kept_after};

use cluster_run::Cluster;

/// Lets go what a call kept. A function of its own, since what a cluster holds is let go part by part in each function
/// that may do so.
pub fn let_go(_kept: Option<Cluster>) {}

/// Keeps a cluster after status 0, and lets it go after any other.
pub(crate) fn keep_after(status: u8, cluster: Cluster, kept: &mut Option<Cluster>)
    requires { kept.old ≡ None }
    ensures { kept.new ≡ kept_after status cluster }
{
    let left = if status == 0 {
        kept.replace(cluster)
    } else {
        Some(cluster)
    };
    let_go(left)
}
