// What documents are judged by.
use cs_profile::Vocabulary;
use cs_syntax::Profile;

/// What documents are judged by, as bytes. A root is named with its `#`.
#[derive(Drop)]
pub enum Rules {
    /// The root definition that the sources declare in the profile, as `vet_in` judges.
    Root {
        profile: Profile,
        sources: Vec<Vec<u8>>,
        root: String,
    },
    /// The schema, which has only keywords of the vocabulary, as `validate_by` judges.
    Schema {
        vocabulary: Vocabulary,
        schema: Vec<u8>,
    },
    /// Both sides of the root definition, as `agree_in` judges.
    Both {
        profile: Profile,
        sources: Vec<Vec<u8>>,
        root: String,
    },
}
