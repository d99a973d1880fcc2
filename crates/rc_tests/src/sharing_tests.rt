//! Types of which threads may share values, or take them over.

use rc_fragment::{Fragment, Keep};
use rc_journal::{Journal, Part, Room};
use rc_plan::{Compiled, Plan, Statement};
use rc_rel::{Entry, PlainRel};
use rc_row::{Note, Pass, Row};
use rc_spec::{Accepted, Call, NodeOrder, Reply, Spec};
use rc_store::{Store, Waking};
use rc_tuple::{Cols, Dep, Tuple, Tuples};

fn is_shared<T: Send + Sync>() {}

fn is_sent<T: Send>() {}

#[test]
fn shares_values() {
    is_shared::<Tuple>();
    is_shared::<Tuples>();
    is_shared::<Cols>();
    is_shared::<Dep>();
    is_shared::<Spec>();
    is_shared::<Accepted>();
    is_shared::<NodeOrder>();
    is_shared::<Call>();
    is_shared::<Reply>();
    is_shared::<Compiled>();
    is_shared::<Plan>();
    is_shared::<Statement>();
    is_shared::<PlainRel>();
    is_shared::<Entry>();
    is_shared::<Fragment>();
    is_shared::<Keep>();
    is_shared::<Part>();
    is_shared::<Room>();
    is_shared::<Journal>();
    is_shared::<Row>();
    is_shared::<Store<Waking>>();
    is_sent::<Pass>();
    is_sent::<Note>();
}
