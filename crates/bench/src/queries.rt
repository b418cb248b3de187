//! What is asked: of a bookstore, and of each message.

/// What is asked of a bookstore.
pub const QUERIES: [&str; 13] = [
    "$..*",
    "$..author",
    "$.store.book[?@.price<10]",
    "$..[?@.a && @.b==1]",
    "$.store.book[?count(@.tags[*])>2]",
    "$.store.book[?length(@.title)>20]",
    "$.store.book[*].author",
    "$.store.book[*]['title','price','id']",
    "$.store.book[?match(@.category,'f.*')]",
    "$.store.book[?search(@.title,'[a-m].*')]",
    "$.store.book[?search(@.title,$.pattern)]",
    "$.store.book[::-1]",
    "$..[?@.price<=$.expensive]",
];

/// What a router asks of each message.
pub const TABLE: [&str; 10] = [
    "$[?@==true]",
    "$.lines[3]",
    "$.lines[?@.count>7]",
    "$.lines[?@.price<10]",
    "$..[?@.count==1 && @.price>30]",
    "$[?length(@)>25]",
    "$.lines[?count(@.*)==3 && @.count<3]",
    "$.lines[?match(@.item,'[a-m].*')]",
    "$.lines[?search(@.item,'i[a-z]*r')]",
    "$[?match(@,'order|invoice')]",
];
