// Components of joined items: a union-find over a lent table.
//
// The table of n items and m labels: n words for the items' links, which end as the numbers of their components; n words for the components' sizes; m words for the labels, each
// the first item seen with that label, plus one, or 0 while there is none.
// Stays (plainer), point 6: table and labels are slices; the numbers beside them are an item, a root, and how many labels an item and the table have.
#![tactic(auto)]

ghost use Rattle.std.specs.Prelude.{◌≡◌, ℕ, ◌+◌, ◌*◌, ◌/◌, ◌≤◌, ◌<◌, length, get_or};
ghost use Rattle.lists.specs.Lists.{up_to};
ghost use Rattle.components.specs.Table.{ItemLabels, ComponentTable};
ghost use Rattle.components.specs.Forest.{Forest, RootFound, RootOf, Flattened, LabelEntered, Swept, SizesTallied};

// The root of x's tree, with the path to it halved.
// Stays (plainer), point 5: `Forest links (length links)` of enter and flatten too: a struct of the links, which are lent for writing, would be made anew for each call.
fn find(links: &mut [u64], x: usize) -> usize
    requires x_in { x < length links.old }
    requires forest { Forest links.old (length links.old) }
    ensures { RootFound links.old links.new (length links.old) x result }
{
    let mut r = x;
    let mut p = links[r] as usize;
    // Stays (plainer): a walk along links, whose number is not known.
    while p != r {
        let q = links[p];
        links[r] = q;
        r = q as usize;
        p = links[r] as usize;
    }
    r
}

// Stays (C interface): `first` is a word of the lent table, 0 while there is no first item, since C lends one buffer and there is no heap.
// A label of item i: i is the first, or its tree and the first's are made one. r is the root of i's tree, before and after.
// The larger root is linked to the smaller, so that a root is its tree's least item.
fn enter(links: &mut [u64], first: &mut u64, i: usize, r: usize) -> usize
    requires i_in { i < length links.old }
    requires by_index { (f : ℕ) → first.old ≡ f + 1 → f < length links.old }
    requires forest { Forest links.old (length links.old) }
    requires root_of { RootOf links.old (length links.old) i r }
    ensures { LabelEntered links.old links.new (length links.old) first.old first.new i result }
{
    let f = *first as usize;
    if f == 0 {
        *first = i as u64 + 1;
        return r;
    }
    let t = find(links, f - 1);
    if r < t {
        links[t] = r as u64;
        return r;
    }
    links[r] = t as u64;
    t
}

// Each item a tree of its own.
fn own(links: &mut [u64])
    ensures { links.new ≡ up_to (length links.old) }
{
    for (i, link) in links.iter_mut().enumerate() {
        *link = i as u64;
    }
}

// Makes each link go to its tree's root, in one pass: a link goes to a smaller item, which is done.
fn flatten(links: &mut [u64])
    requires { Forest links.old (length links.old) }
    ensures { Flattened links.old links.new (length links.old) }
{
    for i in 0..links.len() {
        let p = links[i] as usize;
        // Stays (plainer), point 4: one element, from the place that another element says.
        links[i] = links[p];
    }
}

// Counts how often each number stands in a list, in words that are 0 before.
pub fn tally(numbers: &[u64], sizes: &mut [u64])
    requires low { (i : ℕ) → i < length numbers.now → get_or numbers.now i 0 < length sizes.old }
    requires zero { (r : ℕ) → r < length sizes.old → get_or sizes.old r 0 ≡ 0 }
    ensures { SizesTallied numbers.now sizes.old sizes.new (length sizes.old) }
{
    for number in numbers {
        let r = *number as usize;
        sizes[r] += 1;
    }
}

// Enters the labels of item i, of the k an item.
// Stays (plainer), point 5: ItemLabels of join and components too: it says of labels that they fit the table's first items, which are lent for writing beside them.
fn join_item(labels: &[u64], k: usize, links: &mut [u64], firsts: &mut [u64], i: usize)
    requires item_labels { ItemLabels labels.now (length links.old) k (length firsts.old) }
    requires i_in { i < length links.old }
    requires swept { Swept labels.now (length links.old) k (length firsts.old) links.old firsts.old (i * k) }
    ensures { Swept labels.now (length links.old) k (length firsts.old) links.new firsts.new (i * k + k) }
{
    let mut r = find(links, i);
    for j in 0..k {
        let q = labels[i * k + j] as usize;
        r = enter(links, &mut firsts[q], i, r);
    }
}

fn join(labels: &[u64], k: usize, links: &mut [u64], firsts: &mut [u64])
    requires item_labels { ItemLabels labels.now (length links.old) k (length firsts.old) }
    requires swept { Swept labels.now (length links.old) k (length firsts.old) links.old firsts.old 0 }
    ensures { Swept labels.now (length links.old) k (length firsts.old) links.new firsts.new (length links.old * k) }
{
    for i in 0..links.len() {
        join_item(labels, k, links, firsts, i);
    }
}

// Finds the components of the items that have these labels, k an item and all below m.
pub fn components(table: &mut [u64], labels: &[u64], k: usize, m: usize)
    requires item_labels { ItemLabels labels.now (length labels.now / k) k m }
    requires room { length labels.now / k + length labels.now / k + m ≤ length table.old }
    ensures { ComponentTable labels.now (length labels.now / k) k m 0 table.old table.new }
{
    let n = labels.len() / k;
    let (links, rest) = table.split_at_mut(n);
    let (sizes, rest) = rest.split_at_mut(n);
    let firsts = &mut rest[..m];
    words::zero(sizes);
    words::zero(firsts);
    own(links);
    join(labels, k, links, firsts);
    flatten(links);
    tally(links, sizes);
}
