// Document 01 as definitions: see specs/. No code stands here.
